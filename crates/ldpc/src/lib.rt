// The (174,91) LDPC code of FT8: its checks in tables, and the count of unsatisfied checks.
#![tactic(auto)]

ghost use Rattle.std.specs.Prelude.{◌≡◌, ◌∷◌, ◌<◌, ◌≤◌, length, get_or, drop};
ghost use Rattle.refusal.specs.Outcome.{judged};
ghost use Rattle.tanner.specs.Checks.{xor_from, syndrome_of_bytes};
ghost use Rattle.tanner.specs.Masked.{count_masked, first_masked, syndrome_masked};
ghost use Rattle.tanner.specs.Found.{first_of, syndrome_of, counting_of};
ghost use Rattle.lists.specs.Below.{Below};
ghost use Rattle.ldpc.specs.Calls.{count_refusals};
ghost use Rattle.code174.specs.Code174.{checks};
ghost use Rattle.ldpc.specs.Rows.{Rows, sevens};
ghost use Rattle.code174.specs.Tables.{nm, num_rows, mn};

use refusal::Refusal;
use tanner::Counted;

pub mod tables;

// The code's size: a word's bits, a message's bits, the checks; and the bytes of a packed word and of a packed message.
pub const N: usize = 174;

pub const K: usize = 91;

pub const M: usize = 83;

pub const N_BYTES: usize = 22;

pub const K_BYTES: usize = 12;

// An entry of NM, 7 a check.
pub fn nm_entry(i: usize) -> u8
    requires { i < 581 }
    ensures { result ≡ get_or nm i 0 }
{
    tables::NM[i]
}

// An entry of NUM_ROWS, one a check.
pub fn num_rows_entry(i: usize) -> u8
    requires { i < 83 }
    ensures { result ≡ get_or num_rows i 0 }
{
    tables::NUM_ROWS[i]
}

// An entry of MN, 3 a position.
pub fn mn_entry(i: usize) -> u8
    requires { i < 522 }
    ensures { result ≡ get_or mn i 0 }
{
    tables::MN[i]
}

// The bytes at a row's entries, XORed whole.
// Stays beside the one of tanner over u16: a function for both needs a trait that says a position's number, which is longer than this loop.
fn xor_row(row: &[u8], padded: &[u8]) -> u8
    requires { Below (length padded.now) row.now }
    ensures { result ≡ xor_from 0 row.now padded.now }
{
    let mut x = 0;
    for &p in row {
        x ^= padded[p as usize];
    }
    x
}

// How many of a table's rows up to `end` have a bit of the mask in their bytes XORed whole; `before` is that number for the rows up to `first`.
fn count_rows(first: usize, end: usize, before: u16, table: &[u8], padded: &[u8], mask: u8) -> u16
    requires rows { Rows 83 table.now (length padded.now) }
    requires first_le_end { (first ≤ end) × (end ≤ 83) }
    requires before_value { before ≡ count_masked mask (sevens first table.now) padded.now }
    ensures { result ≡ count_masked mask (sevens end table.now) padded.now }
{
    let mut count = before;
    for c in first..end {
        let a = c * 7;
        if xor_row(&table[a..a + 7], padded) & mask != 0 {
            count += 1;
        }
    }
    count
}

// The count over `NM`, eleven rows a call, so that the compiler sees each position as a number and reads no table.
fn count_word(padded: &[u8], mask: u8) -> u16
    requires { length padded.now ≡ 175 }
    ensures { result ≡ count_masked mask (sevens 83 nm) padded.now }
{
    let nm = tables::NM;
    let mut n = count_rows(0, 11, 0, &nm, padded, mask);
    n = count_rows(11, 22, n, &nm, padded, mask);
    n = count_rows(22, 33, n, &nm, padded, mask);
    n = count_rows(33, 44, n, &nm, padded, mask);
    n = count_rows(44, 55, n, &nm, padded, mask);
    n = count_rows(55, 66, n, &nm, padded, mask);
    n = count_rows(66, 77, n, &nm, padded, mask);
    count_rows(77, 83, n, &nm, padded, mask)
}

// The first row that the mask counts: the scan ends there.
fn first_row(table: &[u8], padded: &[u8], mask: u8) -> Option<u16>
    requires { Rows 83 table.now (length padded.now) }
    ensures { first_of result ≡ first_masked mask (sevens 83 table.now) padded.now }
{
    for c in 0..M {
        let a = c * 7;
        if xor_row(&table[a..a + 7], padded) & mask != 0 {
            return Some(c as u16);
        }
    }
    None
}

// The same over `NM`.
fn first_word(padded: &[u8], mask: u8) -> Option<u16>
    requires { length padded.now ≡ 175 }
    ensures { first_of result ≡ first_masked mask (sevens 83 nm) padded.now }
{
    first_row(&tables::NM, padded, mask)
}

// What the mask counts of a word, and the first check that it counts. The word has a byte 0 before it, which an entry 0 of `NM` reads.
pub fn counted(padded: &[u8], mask: u8) -> Counted
    requires padded_len { length padded.now ≡ 175 }
    requires padded_value { get_or padded.now 0 0 ≡ 0 }
    ensures { syndrome_of result ≡ syndrome_masked mask checks (drop 1 padded.now) }
{
    let count = count_word(padded, mask);
    if count == 0 {
        return Counted { count, first: None };
    }
    let first = first_word(padded, mask);
    Counted { count, first }
}

// A word, with a byte 0 before it.
fn padded_word(hard: &[u8]) -> [u8; 175]
    requires { length hard.now ≡ 174 }
    ensures { result ≡ 0 ∷ hard.now }
{
    let mut padded = [0u8; 175];
    padded[1..].copy_from_slice(hard);
    padded
}

// How many checks the low bits of a word leave unsatisfied.
pub fn count_low(hard: &[u8]) -> u16
    requires { length hard.now ≡ 174 }
    ensures { result ≡ count_masked 1 checks hard.now }
{
    let padded = padded_word(hard);
    count_word(&padded, 1)
}

// The first of them.
pub fn first_low(hard: &[u8]) -> Option<u16>
    requires { length hard.now ≡ 174 }
    ensures { first_of result ≡ first_masked 1 checks hard.now }
{
    let padded = padded_word(hard);
    first_word(&padded, 1)
}

// How many checks have bytes whose XOR is not zero, and the first of them.
pub fn ldpc_count_errors(hard: &[u8]) -> Result<Counted, Refusal>
    ensures { counting_of result ≡ judged (count_refusals hard.now) (syndrome_of_bytes checks hard.now) }
{
    if hard.len() != N {
        return Err(Refusal::InputLength);
    }
    let padded = padded_word(hard);
    Ok(counted(&padded, 255))
}
