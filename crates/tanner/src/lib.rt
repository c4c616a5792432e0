// What is counted of a word, and the XOR of the bytes at one check's positions.
#![tactic(auto)]

ghost use Rattle.std.specs.Prelude.{◌≡◌, length};
ghost use Rattle.tanner.specs.Checks.{xor_from};
ghost use Rattle.lists.specs.Below.{Below};

// What is counted of a word: how many checks, and the number of the first of them, counted from 0, unless every check is satisfied.
#[derive(Clone, Copy, Debug, PartialEq, Eq)]
pub struct Counted {
    pub count: u16,
    pub first: Option<u16>,
}

// The bytes at one check's positions, XORed whole.
pub fn xor_at(positions: &[u16], bytes: &[u8]) -> u8
    requires { Below (length bytes.now) positions.now }
    ensures { result ≡ xor_from 0 positions.now bytes.now }
{
    let mut x = 0;
    for &p in positions {
        x ^= bytes[p as usize];
    }
    x
}
