// Replays the Rust's answers for the (174,91) code: prints the tables, reads 300 messages of 12 bytes and prints the codeword of each, then reads
// words of 174 bytes and prints the count of each and the first check that it includes, all in hexadecimal.
// The file stdout holds what the Rust printed (tools/ldpc_replay.rs).
#![tactic(auto)]

use refusal::Refusal;
use std::io;
use std::io::{Print, Read};
use tanner::Counted;

fn print_byte(rt: &impl Print, byte: u8) -> io::Result<()> {
    print!(rt; "{byte:02x}")
}

fn end_line(rt: &impl Print) -> io::Result<()> {
    println!(rt; "")
}

fn print_nm(rt: &impl Print) -> io::Result<()> {
    for i in 0..581 {
        print_byte(rt, ldpc::nm_entry(i))?;
    }
    end_line(rt)
}

fn print_num_rows(rt: &impl Print) -> io::Result<()> {
    for i in 0..83 {
        print_byte(rt, ldpc::num_rows_entry(i))?;
    }
    end_line(rt)
}

fn print_mn(rt: &impl Print) -> io::Result<()> {
    for i in 0..522 {
        print_byte(rt, ldpc::mn_entry(i))?;
    }
    end_line(rt)
}

fn print_codeword(rt: &impl Print, codeword: &[u8; 22]) -> io::Result<()> {
    for i in 0..22 {
        print_byte(rt, codeword[i])?;
    }
    Ok(())
}

fn print_encoding(rt: &impl Print, message: &[u8; 12]) -> io::Result<()> {
    let mut codeword = [0xFFu8; 22];
    match ldpc_encoding::ldpc_encode(message, &mut codeword) {
        Ok(()) => print_codeword(rt, &codeword)?,
        Err(_) => print!(rt; "refused")?,
    }
    end_line(rt)
}

// One message; answers whether there was one.
fn encode_one(rt: &impl Print, reader: &mut impl Read) -> io::Result<bool> {
    let mut message = [0u8; 12];
    let n = streams::read_all(reader, &mut message)?;
    if n < 12 {
        return Ok(false);
    }
    print_encoding(rt, &message)?;
    Ok(true)
}

fn encode_all(rt: &impl Print, reader: &mut impl Read) -> io::Result<()> {
    for _ in 0..300usize {
        if !encode_one(rt, reader)? {
            return Ok(());
        }
    }
    Ok(())
}

fn print_first(rt: &impl Print, first: Option<u16>) -> io::Result<()> {
    match first {
        Some(check) => print!(rt; "{check:02x}"),
        None => print!(rt; "--"),
    }
}

fn print_count(rt: &impl Print, c: Result<Counted, Refusal>) -> io::Result<()> {
    match c {
        Ok(counted) => {
            let count = counted.count;
            print!(rt; "{count:02x}")?;
            let first = counted.first;
            print_first(rt, first)?;
        }
        Err(_) => print!(rt; "refused")?,
    }
    end_line(rt)
}

// One word; answers whether there was one.
fn count_one(rt: &impl Print, reader: &mut impl Read) -> io::Result<bool> {
    let mut word = [0u8; 174];
    let n = streams::read_all(reader, &mut word)?;
    if n < 174 {
        return Ok(false);
    }
    print_count(rt, ldpc::ldpc_count_errors(&word))?;
    Ok(true)
}

// At most a thousand words are read.
fn count_all(rt: &impl Print, reader: &mut impl Read) -> io::Result<()> {
    for _ in 0..1000usize {
        if !count_one(rt, reader)? {
            return Ok(());
        }
    }
    Ok(())
}

fn main(rt: HostRuntime) -> io::Result<()> {
    let mut stdin = rt.stdin();
    print_nm(&rt)?;
    print_num_rows(&rt)?;
    print_mn(&rt)?;
    encode_all(&rt, &mut stdin)?;
    count_all(&rt, &mut stdin)
}
