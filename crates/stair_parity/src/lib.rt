// The parity bits of a staircase code, filled in row by row after the message bytes: a row has `width` message positions in a table.
// The bit before is carried along from row to row.
#![tactic(auto)]

ghost use Rattle.std.specs.Prelude.{◌≡◌, ◌+◌, ◌≤◌, length};
ghost use Rattle.staircase.specs.Shape.{stair_rows};
ghost use Rattle.stairs.specs.Stairs.{bit_before};
ghost use Rattle.stair_parity.specs.Filling.{Part, filled};

// The bit before parity bit i: none for row 0.
fn bit_before(k: usize, i: usize, bytes: &[u8]) -> u8
    requires { k + i ≤ length bytes.now }
    ensures { result ≡ bit_before k i bytes.now }
{
    if i == 0 {
        return 0;
    }
    bytes[k + i - 1]
}

// The parity bits of n rows from row `first` on, in a codeword whose message bytes are in place: each is the XOR of its row's low bits with the parity bit
// before.
fn fill_rows(width: usize, k: usize, first: usize, n: usize, taps: &[u16], codeword: &mut [u8])
    requires { Part k width first n (length codeword.old) taps.now }
    ensures { codeword.new ≡ filled (stair_rows k width taps.now first n) (k + first) codeword.old }
{
    let mut before = bit_before(k, first, codeword);
    for i in first..first + n {
        let a = i * width;
        before = (tanner::xor_at(&taps[a..a + width], codeword) ^ before) & 1;
        codeword[k + i] = before;
    }
}

// The same with the widths of the codes as numbers that the compiler sees.
// Stays by a number: with a const parameter for the width the compiler takes the rows apart worse (code 0 is encoded in 311 ns, and so in 191).
fn fill_part(width: usize, k: usize, first: usize, n: usize, taps: &[u16], codeword: &mut [u8])
    requires { Part k width first n (length codeword.old) taps.now }
    ensures { codeword.new ≡ filled (stair_rows k width taps.now first n) (k + first) codeword.old }
{
    match width {
        3 => fill_rows(3, k, first, n, taps, codeword),
        6 => fill_rows(6, k, first, n, taps, codeword),
        9 => fill_rows(9, k, first, n, taps, codeword),
        _ => fill_rows(width, k, first, n, taps, codeword),
    }
}

// Four parts of n rows, one after another. Where each number is a literal of the caller's the compiler takes this apart into the single XORs,
// and reads no table.
pub fn fill_four(width: usize, k: usize, first: usize, n: usize, taps: &[u16], codeword: &mut [u8])
    requires { Part k width first (n + n + n + n) (length codeword.old) taps.now }
    ensures { codeword.new ≡ filled (stair_rows k width taps.now first (n + n + n + n)) (k + first) codeword.old }
{
    let second = first + n;
    let third = second + n;
    let fourth = third + n;
    fill_part(width, k, first, n, taps, codeword);
    fill_part(width, k, second, n, taps, codeword);
    fill_part(width, k, third, n, taps, codeword);
    fill_part(width, k, fourth, n, taps, codeword);
}
