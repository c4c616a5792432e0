// Replays the Rust's answers for the staircase codes: the rows that the construction gives when it runs, the tables, and encodings, counts
// and first checks of the words of the file stdin, 576 bytes each. The file stdout holds what the Rust printed (tools/staircase_replay.rs).
#![tactic(auto)]

use construction::codes::{N512R12, N512R34, N576R23};
use refusal::Refusal;
use staircase::tables::{
    N512R12_CHECK_BITS, N512R12_CHECK_STARTS, N512R12_EDGES, N512R12_TAPS, N512R34_CHECK_BITS,
    N512R34_CHECK_STARTS, N512R34_EDGES, N512R34_TAPS, N576R23_CHECK_BITS, N576R23_CHECK_STARTS,
    N576R23_EDGES, N576R23_TAPS,
};
use std::io;
use std::io::{Print, Read};
use tanner::Counted;

fn print_table(rt: &impl Print, table: &[u16]) -> io::Result<()> {
    for entry in table {
        print!(rt; "{entry:04x}")?;
    }
    println!(rt; "")
}

fn print_bytes(rt: &impl Print, bytes: &[u8]) -> io::Result<()> {
    for byte in bytes {
        print!(rt; "{byte:02x}")?;
    }
    println!(rt; "")
}

// The rows of the message columns, as the construction gives them when it runs, and how many picks were relaxed.
fn print_columns(rt: &impl Print) -> io::Result<()> {
    let a = N512R12::construct();
    let rows = a.rows;
    print_table(rt, &rows)?;
    let relaxed = a.relaxed;
    print!(rt; "{relaxed:04x}")?;
    let b = N576R23::construct();
    let rows = b.rows;
    print_table(rt, &rows)?;
    let relaxed = b.relaxed;
    print!(rt; "{relaxed:04x}")?;
    let c = N512R34::construct();
    let rows = c.rows;
    print_table(rt, &rows)?;
    let relaxed = c.relaxed;
    print!(rt; "{relaxed:04x}")
}

fn print_checks(rt: &impl Print) -> io::Result<()> {
    print_table(rt, &N512R12_CHECK_STARTS)?;
    print_table(rt, &N512R12_CHECK_BITS)?;
    print_table(rt, &N576R23_CHECK_STARTS)?;
    print_table(rt, &N576R23_CHECK_BITS)?;
    print_table(rt, &N512R34_CHECK_STARTS)?;
    print_table(rt, &N512R34_CHECK_BITS)
}

fn print_shapes(rt: &impl Print) -> io::Result<()> {
    print_table(rt, &N512R12_TAPS)?;
    print_table(rt, &N512R12_EDGES)?;
    print_table(rt, &N576R23_TAPS)?;
    print_table(rt, &N576R23_EDGES)?;
    print_table(rt, &N512R34_TAPS)?;
    print_table(rt, &N512R34_EDGES)
}

fn print_first(rt: &impl Print, first: Option<u16>) -> io::Result<()> {
    match first {
        Some(check) => print!(rt; "{check:04x}"),
        None => print!(rt; "----"),
    }
}

fn print_weight(rt: &impl Print, w: Result<Counted, Refusal>) -> io::Result<()> {
    match w {
        Ok(counted) => {
            let count = counted.count;
            print!(rt; "{count:04x}")?;
            let first = counted.first;
            print_first(rt, first)
        }
        Err(_) => print!(rt; "refused"),
    }
}

// The codeword of a message, where it is not refused.
fn print_encoding(
    rt: &impl Print,
    code: u32,
    message: &[u8],
    codeword: &mut [u8],
) -> io::Result<()> {
    match ldpc_codes::encode(code, message, codeword) {
        Ok(()) => print_bytes(rt, codeword),
        Err(_) => print!(rt; "refused"),
    }
}

// One word; answers whether there was one.
fn replay_one(rt: &impl Print, reader: &mut impl Read) -> io::Result<bool> {
    let mut word = [0u8; 576];
    let n = streams::read_all(reader, &mut word)?;
    if n < 576 {
        return Ok(false);
    }
    let mut first = [0xFFu8; 512];
    print_encoding(rt, 0, &word[0..256], &mut first)?;
    let mut second = [0xFFu8; 576];
    print_encoding(rt, 1, &word[0..384], &mut second)?;
    let mut third = [0xFFu8; 512];
    print_encoding(rt, 2, &word[0..384], &mut third)?;
    print_weight(rt, ldpc_codes::syndrome_weight(0, &word))?;
    print_weight(rt, ldpc_codes::syndrome_weight(1, &word))?;
    print_weight(rt, ldpc_codes::syndrome_weight(2, &word))?;
    println!(rt; "")?;
    Ok(true)
}

// At most a thousand words are read.
fn main(rt: HostRuntime) -> io::Result<()> {
    print_columns(&rt)?;
    print_checks(&rt)?;
    print_shapes(&rt)?;
    let mut stdin = rt.stdin();
    for _ in 0..1000usize {
        if !replay_one(&rt, &mut stdin)? {
            return Ok(());
        }
    }
    Ok(())
}
