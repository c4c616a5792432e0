// Stored inputs, one after the other: each is its length, a little-endian u32, and its bytes.
#![tactic(auto)]

ghost use Rattle.std.specs.Prelude.{◌<◌, length, IfOk};
ghost use Rattle.stored_inputs.specs.Stored.{Held};

use std::io;
use std::io::Read;

// How many inputs a replay reads at most.
pub const MOST: usize = 4096;

fn wide(byte: u8) -> usize
    ensures { result < 256 }
{
    byte as usize
}

fn length_of(head: &[u8; 4]) -> usize {
    wide(head[0]) + 256 * wide(head[1]) + 65536 * wide(head[2]) + 16777216 * wide(head[3])
}

// Reads the next input, where the buffer has room for it: so many bytes at the front of the buffer, or none where no input is left.
pub fn read_next<R: Read>(reader: &mut R, input: &mut [u8]) -> io::Result<Option<usize>>
    ensures { IfOk result (λ stored. Held stored (length input.new)) }
{
    let mut head = [0u8; 4];
    if streams::read_all(reader, &mut head)? < 4 {
        return Ok(None);
    }
    let n = length_of(&head);
    if n > input.len() {
        return Ok(None);
    }
    let got = streams::read_all(reader, &mut input[..n])?;
    Ok(Some(got))
}
