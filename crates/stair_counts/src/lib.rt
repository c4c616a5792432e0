// A staircase code's count and its first open check, by the code's number.
// The count takes no table: the message part is encoded again, and a row is open where just one of its two parity bits differs from that.
#![tactic(auto)]

ghost use Rattle.std.specs.Prelude.{◌≡◌, ◌+◌, ◌<◌, ◌≤◌, length};
ghost use Rattle.tanner.specs.Masked.{count_masked, first_masked, syndrome_masked};
ghost use Rattle.tanner.specs.Found.{first_of, syndrome_of};
ghost use Rattle.construction.specs.Codes.{n512r12, n576r23, n512r34, block_length};
ghost use Rattle.staircase.specs.Codes.{code_of, checks};
ghost use Rattle.stair_counts.specs.Apart.{rows_apart};

use staircase::tables::{N512R12_TAPS, N512R34_TAPS, N576R23_TAPS};
use tanner::Counted;

// In how many of m rows two words differ in one of the row's parity bits: in its own or in the one before, and not in both.
fn count_apart(k: usize, m: usize, word: &[u8], hard: &[u8]) -> u16
    requires m_in_bounds { k + m ≤ length word.now }
    requires m_in_bounds_2 { k + m ≤ length hard.now }
    requires m_bound { m < 65536 }
    ensures { result ≡ rows_apart k 0 m word.now hard.now }
{
    let mut found = 0;
    let mut before = 0;
    for i in 0..m {
        let own = word[k + i] ^ hard[k + i];
        found += ((own ^ before) & 1) as u16;
        before = own;
    }
    found
}

// The count, with room for the encoding.
fn count_in(code: u32, k: usize, word: &mut [u8], hard: &[u8]) -> u16
    requires k_value { k ≡ (code_of code).k }
    requires word_len { length word.old ≡ block_length (code_of code) }
    requires code_in_bounds { block_length (code_of code) ≤ length hard.now }
    ensures { result ≡ count_masked 1 (checks (code_of code)) hard.now }
{
    parities::encode(code, &hard[..k], word);
    count_apart(k, word.len() - k, word, hard)
}

// How many checks the low bits of a word leave unsatisfied: any number above 1 is code 2.
pub fn count(code: u32, hard: &[u8]) -> u16
    requires { block_length (code_of code) ≤ length hard.now }
    ensures { result ≡ count_masked 1 (checks (code_of code)) hard.now }
{
    let mut word = [0; 576];
    match code {
        0 => count_in(0, 256, &mut word[..512], hard),
        1 => count_in(1, 384, &mut word, hard),
        _ => count_in(2, 384, &mut word[..512], hard),
    }
}

// The first of the unsatisfied checks.
pub fn first(code: u32, hard: &[u8]) -> Option<u16>
    requires { block_length (code_of code) ≤ length hard.now }
    ensures { first_of result ≡ first_masked 1 (checks (code_of code)) hard.now }
{
    match code {
        0 => stairs::first_row(3, 256, 256, &N512R12_TAPS, hard),
        1 => stairs::first_row(6, 384, 192, &N576R23_TAPS, hard),
        _ => stairs::first_row(9, 384, 128, &N512R34_TAPS, hard),
    }
}

// Both: the scan is spared where the count is 0.
pub fn counted(code: u32, hard: &[u8]) -> Counted
    requires { block_length (code_of code) ≤ length hard.now }
    ensures { syndrome_of result ≡ syndrome_masked 1 (checks (code_of code)) hard.now }
{
    let count = count(code, hard);
    if count == 0 {
        return Counted { count, first: None };
    }
    let first = first(code, hard);
    Counted { count, first }
}
