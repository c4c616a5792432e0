// Replays the Rust's answers: reads messages of 25 bytes, and prints for each the checksums that tools/crc_replay.rs describes.
// The file stdout holds what the Rust printed for the messages of the file stdin.
#![tactic(auto)]

use refusal::Refusal;
use std::io;
use std::io::{Print, Read};

fn print_checksum(rt: &impl Print, c: Result<u16, Refusal>) -> io::Result<()> {
    match c {
        Ok(v) => print!(rt; "{v:04x}"),
        Err(_) => print!(rt; "refused"),
    }
}

// The checksum of every bit count from 0 to 200.
fn print_all_counts(rt: &impl Print, message: &[u8]) -> io::Result<()> {
    for bits in 0..201 {
        print_checksum(rt, crc::ft8_crc14(message, bits))?;
    }
    Ok(())
}

fn print_bytes(rt: &impl Print, bytes: &[u8]) -> io::Result<()> {
    for byte in bytes {
        print!(rt; "{byte:02x}")?;
    }
    Ok(())
}

fn print_block(rt: &impl Print, payload: &[u8]) -> io::Result<()> {
    let mut block = [0xFFu8; 12];
    match crc::ft8_add_crc(payload, &mut block) {
        Ok(()) => print_bytes(rt, &block),
        Err(_) => print!(rt; "refused"),
    }
}

// One message; answers whether there was one.
fn replay_one(rt: &impl Print, reader: &mut impl Read) -> io::Result<bool> {
    let mut message = [0u8; 25];
    let n = streams::read_all(reader, &mut message)?;
    if n < 25 {
        return Ok(false);
    }
    print_all_counts(rt, &message)?;
    print!(rt; " ")?;
    print_block(rt, &message[0..10])?;
    print!(rt; " ")?;
    print_checksum(rt, crc::ft8_extract_crc(&message[0..12]))?;
    println!(rt; "")?;
    Ok(true)
}

// At most a thousand messages are read.
fn main(rt: HostRuntime) -> io::Result<()> {
    let mut stdin = rt.stdin();
    for _ in 0..1000usize {
        if !replay_one(&rt, &mut stdin)? {
            return Ok(());
        }
    }
    Ok(())
}
