// Explains a frame of a batch: standard input is a frame's place and a batch, and the reason why that frame is open is written to standard output.
#![tactic(auto)]

ghost use Rattle.std.specs.Prelude.{◌≡◌, length};

use std::io;

// Room for a place, the longest batch and one byte more, by which a longer one is seen.
fn input_room() -> [u8; 65539]
    ensures { 65539 ≡ length result }
{
    [0; 65539]
}

fn main(rt: HostRuntime) -> io::Result<()> {
    let mut input = input_room();
    match streams::read_all(&mut rt.stdin(), &mut input) {
        Ok(n) => {
            let mut out = [0u8; 4096];
            let m = why::why(&input[..n], &mut out);
            streams::print(&rt, &out[..m])
        }
        Err(error) => streams::unread(&rt, error),
    }
}
