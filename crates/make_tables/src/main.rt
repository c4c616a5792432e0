// Prints the tables of the staircase codes from the construction: what crates/staircase/src/tables.rt has below its first line, an entry a line.
#![tactic(auto)]

ghost use Rattle.std.specs.Prelude.{◌≤◌, ◌<◌, length};

use construction::codes::{N512R12, N512R34, N576R23};
use std::io;
use std::io::Print;

// A code of K message columns and M checks, with the rows of its columns.
#[derive(Clone, Copy)]
struct Code<'a> {
    name: &'a str,
    rows: &'a [u16],
    k: usize,
    m: usize,
    ghost few_rows: { length rows.now < 65536 },
    ghost few_columns: { k < 65536 },
    ghost some_checks: { 0 < m },
    ghost few_checks: { m < 65536 },
}

impl<'a> Code<'a> {
    // The head of one of its tables.
    fn print_head(&self, rt: &impl Print, table: &str, len: usize) -> io::Result<()> {
        let name = self.name;
        println!(rt; "\npub const {name}_{table}: [u16; {len}] = [")
    }

    // The rows of each message column.
    fn print_rows(&self, rt: &impl Print) -> io::Result<()> {
        self.print_head(rt, "ROWS", self.rows.len())?;
        for row in self.rows {
            println!(rt; "    {row},")?;
        }
        println!(rt; "];")
    }

    // The message columns of row r, ascending.
    fn print_taps_of(&self, rt: &impl Print, r: usize) -> io::Result<()> {
        for (c, column) in self.rows.chunks_exact(3).enumerate() {
            if columns::contains(column, r) {
                println!(rt; "    {c},")?;
            }
        }
        Ok(())
    }

    // How many of the first n message columns hold row r.
    fn count_taps(&self, n: usize, r: usize) -> usize
        ensures { result ≤ length self.now.rows.now }
    {
        self.rows
            .chunks_exact(3)
            .take(n)
            .filter(|column| columns::contains(column, r))
            .count()
    }

    // The start of each check, and the end of the last. A check has its row's message columns and two parity columns, the first one.
    fn print_starts(&self, rt: &impl Print) -> io::Result<()> {
        self.print_head(rt, "CHECK_STARTS", self.m + 1)?;
        let mut at = 0;
        for r in 0..self.m {
            println!(rt; "    {at},")?;
            at += self.count_taps(self.k, r) + if r == 0 { 1 } else { 2 };
        }
        println!(rt; "    {at},\n];")
    }

    // The positions of each check: its row's message columns, then K+i, then K+i-1.
    fn print_bits(&self, rt: &impl Print) -> io::Result<()> {
        self.print_head(rt, "CHECK_BITS", self.rows.len() + 2 * self.m - 1)?;
        for r in 0..self.m {
            self.print_taps_of(rt, r)?;
            println!(rt; "    {},", self.k + r)?;
            if r > 0 {
                println!(rt; "    {},", self.k + r - 1)?;
            }
        }
        println!(rt; "];")
    }

    // The message columns of every row, one row after another.
    fn print_taps(&self, rt: &impl Print) -> io::Result<()> {
        self.print_head(rt, "TAPS", self.rows.len())?;
        for r in 0..self.m {
            self.print_taps_of(rt, r)?;
        }
        println!(rt; "];")
    }

    // The places by slots of each position's edges: that to row r, which has j message columns before the position, lies at j * M + r.
    fn print_edges(&self, rt: &impl Print) -> io::Result<()> {
        self.print_head(rt, "EDGES", self.rows.len())?;
        for (p, column) in self.rows.chunks_exact(3).enumerate() {
            for &row in column {
                let r = usize::from(row);
                println!(rt; "    {},", self.count_taps(p, r) * self.m + r)?;
            }
        }
        println!(rt; "];")
    }

    // All its tables.
    fn print(&self, rt: &impl Print) -> io::Result<()> {
        self.print_rows(rt)?;
        self.print_starts(rt)?;
        self.print_bits(rt)?;
        self.print_taps(rt)?;
        self.print_edges(rt)
    }
}

fn main(rt: HostRuntime) -> io::Result<()> {
    let rows = N512R12::construct().rows;
    Code {
        name: "N512R12",
        rows: &rows,
        k: N512R12::K,
        m: N512R12::M,
    }
    .print(&rt)?;
    let rows = N576R23::construct().rows;
    Code {
        name: "N576R23",
        rows: &rows,
        k: N576R23::K,
        m: N576R23::M,
    }
    .print(&rt)?;
    let rows = N512R34::construct().rows;
    Code {
        name: "N512R34",
        rows: &rows,
        k: N512R34::K,
        m: N512R34::M,
    }
    .print(&rt)
}
