// Replays published FT8 vectors, made by `ft8code` of Debian's package wsjtx with tools/ft8_vectors.py: each line of the file stdin
// has the 77 source bits, the 14 checksum bits, the 83 parity bits and the message. The program packs the 77 bits alone, appends the
// checksum, reads it back, encodes, and prints the payload, the checksum read back and the parity: the line's first three fields.
#![tactic(auto)]

use std::io;
use std::io::{Print, Read};

// The payload's ten bytes of the line's first 77 digits.
fn pack(line: &[u8; 215], payload: &mut [u8; 10]) {
    for (i, &digit) in line[..77].iter().enumerate() {
        if digit == b'1' {
            payload[i / 8] |= 128u8 >> (i % 8);
        }
    }
}

// The digit of the codeword's bit i.
fn bit_digit(codeword: &[u8; 22], i: usize) -> u8 {
    if i < 174 {
        (codeword[i / 8] >> (7 - i % 8)) % 2 + b'0'
    } else {
        b'\n'
    }
}

// The digit of a checksum's bit i.
fn checksum_digit(checksum: u16, i: u8) -> u8 {
    if checksum >> (13 - i % 14) & 1 == 0 {
        b'0'
    } else {
        b'1'
    }
}

// What stands at place i of a line: the payload's 77 bits, the checksum's 14 and the parity's 83, with a space between.
fn digit(codeword: &[u8; 22], checksum: u16, i: usize) -> u8 {
    if i < 77 {
        return bit_digit(codeword, i);
    }
    if i == 77 {
        return b' ';
    }
    if i < 92 {
        return checksum_digit(checksum, (i - 78) as u8);
    }
    if i == 92 {
        return b' ';
    }
    bit_digit(codeword, i - 2)
}

fn print_line(rt: &impl Print, text: &[u8; 177]) -> io::Result<()> {
    rt.write_all(text)
}

fn print_fields(rt: &impl Print, codeword: &[u8; 22], checksum: u16) -> io::Result<()> {
    let mut text = [0u8; 177];
    for (i, place) in text.iter_mut().enumerate() {
        *place = digit(codeword, checksum, i);
    }
    print_line(rt, &text)
}

fn print_refused(rt: &impl Print) -> io::Result<()> {
    println!(rt; "refused")
}

fn encode(rt: &impl Print, block: &[u8; 12], checksum: u16) -> io::Result<()> {
    let mut codeword = [0xFFu8; 22];
    match ldpc_encoding::ldpc_encode(block, &mut codeword) {
        Ok(()) => print_fields(rt, &codeword, checksum),
        Err(_) => print_refused(rt),
    }
}

fn read_back(rt: &impl Print, block: &[u8; 12]) -> io::Result<()> {
    match crc::ft8_extract_crc(block) {
        Ok(checksum) => encode(rt, block, checksum),
        Err(_) => print_refused(rt),
    }
}

fn append(rt: &impl Print, payload: &[u8; 10]) -> io::Result<()> {
    let mut block = [0u8; 12];
    match crc::ft8_add_crc(payload, &mut block) {
        Ok(()) => read_back(rt, &block),
        Err(_) => print_refused(rt),
    }
}

// The fields of a line.
fn replay(rt: &impl Print, line: &[u8; 215]) -> io::Result<()> {
    let mut payload = [0u8; 10];
    pack(line, &mut payload);
    append(rt, &payload)
}

// One line; answers whether there was one.
fn replay_one(rt: &impl Print, reader: &mut impl Read) -> io::Result<bool> {
    let mut line = [0u8; 215];
    let n = streams::read_all(reader, &mut line)?;
    if n < 215 {
        return Ok(false);
    }
    replay(rt, &line)?;
    Ok(true)
}

// At most a thousand lines are read.
fn main(rt: HostRuntime) -> io::Result<()> {
    let mut stdin = rt.stdin();
    for _ in 0..1000usize {
        if !replay_one(&rt, &mut stdin)? {
            return Ok(());
        }
    }
    Ok(())
}
