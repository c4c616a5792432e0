// Explains stored inputs one after the other.
#![tactic(auto)]

ghost use Rattle.std.specs.Prelude.{◌≡◌, length};

use std::io;
use std::io::{Print, Read};

fn input_room() -> [u8; 65539]
    ensures { 65539 ≡ length result }
{
    [0; 65539]
}

// One input; answers whether there was one.
fn why_one<R: Read, P: Print>(rt: &P, reader: &mut R) -> io::Result<bool> {
    let mut input = input_room();
    let Some(n) = stored_inputs::read_next(reader, &mut input)? else {
        return Ok(false);
    };
    let mut out = [0u8; 4096];
    let m = why::why(&input[..n], &mut out);
    streams::write_text(&mut io::writer(rt), &out[..m])?;
    Ok(true)
}

fn main(rt: HostRuntime) -> io::Result<()> {
    let mut stdin = rt.stdin();
    for _ in 0..stored_inputs::MOST {
        if !why_one(&rt, &mut stdin)? {
            return Ok(());
        }
    }
    Ok(())
}
