// An input read whole and a text written whole. A read that fails is told from the end, a call is made again where that helps, and what cannot be done is
// said on standard error.
#![tactic(auto)]

ghost use Rattle.std.specs.Prelude.{◌≤◌, ◌<◌, length, take, IfOk, OnOk};
ghost use Rattle.std.specs.Io.KnownBytes.{Appends, Consumes, IsAtEnd};

use std::io::{Eprint, ErrorKind, Print, Read, Write};
use std::{io, thread};

// How often a call that a signal interrupted, or that would have to wait, is made again: about a second.
const TRIES: usize = 1000000;

// Whether the call that has just failed may do better later: a signal came between, or the other end of a pipe that does not wait is not ready.
fn passing(error: &io::Error) -> bool {
    matches!(error.kind(), ErrorKind::Interrupted | ErrorKind::WouldBlock)
}

// How often more to try after a call that failed: once less where it may do better, and else no more, with the error.
fn tries_left(error: io::Error, left: usize) -> io::Result<usize>
    ensures { IfOk result (λ n. n < left) }
{
    if left == 0 {
        return Err(error);
    }
    if passing(&error) {
        thread::yield_now();
        return Ok(left - 1);
    }
    Err(error)
}

// Reads to the end of the input, or until the room is full, and answers how many bytes were read.
pub fn read_all<R: Read>(reader: &mut R, input: &mut [u8]) -> io::Result<usize>
    ensures bound { IfOk result (λ n. n ≤ length input.new) }
    ensures bytes { IfOk result (λ n. Consumes (R.remaining reader.old) (R.remaining reader.new) (take n input.new)) }
    ensures whole { IfOk result (λ n. n < length input.new → IsAtEnd (R.remaining reader.new)) }
{
    let mut n = 0;
    let mut tries = TRIES;
    // Stays a `while` over a count: each turn goes on by as many bytes as the read gave, which no range counts out, and the count is the answer.
    while n < input.len() {
        match reader.read(&mut input[n..]) {
            Ok(0) => return Ok(n),
            Ok(more) => n += more,
            Err(error) => tries = tries_left(error, tries)?,
        }
    }
    Ok(n)
}

// Writes the whole text, or answers why it cannot; some of it may have been written then.
pub fn write_text<W: Write>(writer: &mut W, text: &[u8]) -> io::Result<()>
    ensures { OnOk result (Appends (W.contents writer.old) (W.contents writer.new) text.now) }
{
    let mut rest = text;
    let mut tries = TRIES;
    while !rest.is_empty() {
        match writer.write(rest) {
            Ok(0) => return Err(io::Error::from(ErrorKind::WriteZero)),
            Ok(more) => rest = &rest[more..],
            Err(error) => tries = tries_left(error, tries)?,
        }
    }
    Ok(())
}

// Says on standard error that standard input could not be read, and why.
pub fn unread(rt: &impl Eprint, error: io::Error) -> io::Result<()> {
    eprintln!(rt; "standard input: {error}")
}

// Writes the whole text to standard output, or says on standard error that it could not, and why.
pub fn print<R: Print + Eprint>(rt: &R, text: &[u8]) -> io::Result<()> {
    match write_text(&mut io::writer(rt), text) {
        Ok(()) => Ok(()),
        Err(error) => eprintln!(rt; "standard output: not all was written: {error}"),
    }
}
