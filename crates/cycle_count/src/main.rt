// Prints a line for each staircase code: the code, its cycles of length four, its relaxed picks.
#![tactic(auto)]

use std::io;
use std::io::Print;

// The line of one code.
fn print_line(rt: &impl Print, code: u32, cycles: u32, relaxed: u16) -> io::Result<()> {
    println!(rt; "{code} {cycles} {relaxed}")
}

// There is room for 64 cycles, and no code has more.
fn print_code(rt: &impl Print, code: u32) -> io::Result<()> {
    let mut out = [0u16; 256];
    match cycles::list_cycles(code, &mut out) {
        Ok(listed) => print_line(rt, code, listed.cycles, listed.relaxed),
        Err(_) => println!(rt; "refused"),
    }
}

fn main(rt: HostRuntime) -> io::Result<()> {
    print_code(&rt, 0)?;
    print_code(&rt, 1)?;
    print_code(&rt, 2)
}
