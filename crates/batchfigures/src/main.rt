// Reception figures of batches: each argument names a file that holds a batch as `batchlist` takes it. A file that is not counted gets a line with its place
// among the arguments, from 1, and the reason; the last line has the figures of all frames counted.
#![tactic(auto)]

ghost use Rattle.std.specs.Prelude.{◌≡◌, ◌≤◌, length, IfOk};

use figures::Totals;
use std::env::{Env, FillError};
use std::io::{Eprint, ErrorKind, Print};
use std::rt::Files;
use std::{fs, io, str};

// Room for the longest input and one byte more, by which a longer one is seen.
fn input_room() -> [u8; 65537]
    ensures { 65537 ≡ length result }
{
    [0; 65537]
}

// Reads the file of that name to its end, or until the room is full. A name that is not text is no file's here.
fn read_named<R: Files>(rt: &R, name: &[u8], input: &mut [u8]) -> io::Result<usize>
    ensures { IfOk result (λ n. n ≤ length input.new) }
{
    match str::from_utf8(name) {
        Ok(path) => {
            let mut file = fs::open(rt, path)?;
            streams::read_all(&mut file, input)
        }
        Err(_) => Err(io::Error::from(ErrorKind::InvalidFilename)),
    }
}

// Reads the file that argument i names. An argument that is too long for a path names none.
fn read_argument<R: Files + Env>(rt: &R, i: usize, input: &mut [u8]) -> io::Result<usize>
    ensures { IfOk result (λ n. n ≤ length input.new) }
{
    let mut path = [0u8; 4096];
    match rt.arg(i, &mut path) {
        Ok(k) => read_named(rt, &path[..k], input),
        Err(_) => Err(io::Error::from(ErrorKind::InvalidFilename)),
    }
}

// The total after the file that argument i names; its line is written where it has one.
fn count_file<R: Files + Env + Print + Eprint>(
    rt: &R,
    total: Totals,
    i: usize,
) -> io::Result<Totals> {
    let mut input = input_room();
    let file = match read_argument(rt, i, &mut input) {
        Ok(n) => Some(&input[..n]),
        Err(_) => None,
    };
    let mut out = [0u8; 4096];
    let step = figure_report::add_file(total, i as u64, file, &mut out);
    streams::print(rt, &out[..step.end])?;
    Ok(step.total)
}

fn print_totals<R: Print + Eprint>(rt: &R, total: Totals) -> io::Result<()> {
    let mut out = [0u8; 4096];
    let end = figure_lines::totals_line(&mut out, 0, total);
    streams::print(rt, &out[..end])
}

// Whether there is an argument i; its first byte is asked for alone.
fn is_given(rt: &impl Env, i: usize) -> bool {
    let mut first = [0u8; 1];
    match rt.arg(i, &mut first) {
        Err(FillError::NotPresent) => false,
        _ => true,
    }
}

fn main(rt: HostRuntime) -> io::Result<()> {
    let mut total = Totals {
        frames: 0,
        clean: 0,
        counts: 0,
        rounds: 0,
    };
    for i in 1..usize::MAX {
        if !is_given(&rt, i) {
            break;
        }
        total = count_file(&rt, total, i)?;
    }
    print_totals(&rt, total)
}
