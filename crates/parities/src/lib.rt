// The encoding of each staircase code by its number: the message bytes, and the parity bits filled in after them.
#![tactic(auto)]

ghost use Rattle.std.specs.Prelude.{◌≡◌, ◌++◌, ◌≤◌, length, drop};
ghost use Rattle.construction.specs.Codes.{n512r12, n576r23, n512r34, block_length};
ghost use Rattle.staircase.specs.Staircase.{encoded};
ghost use Rattle.staircase.specs.Codes.{code_of, columns, checks};
ghost use Rattle.stair_parity.specs.Filling.{filled};

use staircase::tables::{N512R12_TAPS, N512R34_TAPS, N576R23_TAPS};

// The parity bits of code 0.
// Stays a function a code, and not one generic over width, K and part: that was tried, and encodes code 0 in 311 ns where this takes 191.
fn fill_n512r12(codeword: &mut [u8])
    requires { length codeword.old ≡ block_length n512r12 }
    ensures { codeword.new ≡ filled (checks n512r12) n512r12.k codeword.old }
{
    let taps = N512R12_TAPS;
    stair_parity::fill_four(3, 256, 0, 16, &taps, codeword);
    stair_parity::fill_four(3, 256, 64, 16, &taps, codeword);
    stair_parity::fill_four(3, 256, 128, 16, &taps, codeword);
    stair_parity::fill_four(3, 256, 192, 16, &taps, codeword);
}

// The parity bits of code 1.
fn fill_n576r23(codeword: &mut [u8])
    requires { length codeword.old ≡ block_length n576r23 }
    ensures { codeword.new ≡ filled (checks n576r23) n576r23.k codeword.old }
{
    let taps = N576R23_TAPS;
    stair_parity::fill_four(6, 384, 0, 12, &taps, codeword);
    stair_parity::fill_four(6, 384, 48, 12, &taps, codeword);
    stair_parity::fill_four(6, 384, 96, 12, &taps, codeword);
    stair_parity::fill_four(6, 384, 144, 12, &taps, codeword);
}

// The parity bits of code 2.
fn fill_n512r34(codeword: &mut [u8])
    requires { length codeword.old ≡ block_length n512r34 }
    ensures { codeword.new ≡ filled (checks n512r34) n512r34.k codeword.old }
{
    let taps = N512R34_TAPS;
    stair_parity::fill_four(9, 384, 0, 8, &taps, codeword);
    stair_parity::fill_four(9, 384, 32, 8, &taps, codeword);
    stair_parity::fill_four(9, 384, 64, 8, &taps, codeword);
    stair_parity::fill_four(9, 384, 96, 8, &taps, codeword);
}

// The parity bits of the code with that number, in a codeword whose message bytes are in place.
fn fill(code: u32, codeword: &mut [u8])
    requires { length codeword.old ≡ block_length (code_of code) }
    ensures { codeword.new ≡ filled (checks (code_of code)) (code_of code).k codeword.old }
{
    match code {
        0 => fill_n512r12(codeword),
        1 => fill_n576r23(codeword),
        _ => fill_n512r34(codeword),
    }
}

// The message bytes, whole, at the front of the codeword.
// Stays a loop: `copy_from_slice` is C's `memmove` here, which the archive asks of no host.
fn copy_message(message: &[u8], codeword: &mut [u8])
    requires { length message.now ≤ length codeword.old }
    ensures { codeword.new ≡ message.now ++ drop (length message.now) codeword.old }
{
    for (i, &byte) in message.iter().enumerate() {
        codeword[i] = byte;
    }
}

// The codeword of a message of K bytes, whose low bits are its bits.
pub fn encode(code: u32, message: &[u8], codeword: &mut [u8])
    requires message_len { length message.now ≡ (code_of code).k }
    requires codeword_len { length codeword.old ≡ block_length (code_of code) }
    ensures { codeword.new ≡ encoded (code_of code).m (columns (code_of code)) message.now }
{
    copy_message(message, codeword);
    fill(code, codeword);
}
