// The first open row by a staircase code's shape: every row has `width` message positions in a table, then its own parity bit and the one before.
// The bit before is carried along, so that each byte of the parity is read once.
#![tactic(auto)]

ghost use Rattle.std.specs.Prelude.{◌≡◌, length};
ghost use Rattle.tanner.specs.Masked.{first_masked};
ghost use Rattle.tanner.specs.Found.{first_of};
ghost use Rattle.staircase.specs.Shape.{stairs};
ghost use Rattle.stairs.specs.Stairs.{Stairs};

// The first row that the low bits leave unsatisfied: the scan ends there.
pub fn first_row(width: usize, k: usize, m: usize, taps: &[u16], bytes: &[u8]) -> Option<u16>
    requires { Stairs k width m (length bytes.now) taps.now }
    ensures { first_of result ≡ first_masked 1 (stairs k width m taps.now) bytes.now }
{
    let mut last = 0;
    for i in 0..m {
        let a = i * width;
        let own = bytes[k + i];
        let sum = tanner::xor_at(&taps[a..a + width], bytes) ^ own ^ last;
        if sum & 1 != 0 {
            return Some(i as u16);
        }
        last = own;
    }
    None
}
