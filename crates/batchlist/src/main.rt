// Lists a batch: standard input is decoded, and its listing is written to standard output.
#![tactic(auto)]

ghost use Rattle.std.specs.Prelude.{◌≡◌, length};

use std::io;

// Room for the longest input and one byte more, by which a longer one is seen.
fn input_room() -> [u8; 65537]
    ensures { 65537 ≡ length result }
{
    [0; 65537]
}

fn main(rt: HostRuntime) -> io::Result<()> {
    let mut input = input_room();
    match streams::read_all(&mut rt.stdin(), &mut input) {
        Ok(n) => {
            let mut out = [0u8; 4096];
            let m = listing::list(&input[..n], &mut out);
            streams::print(&rt, &out[..m])
        }
        Err(error) => streams::unread(&rt, error),
    }
}
