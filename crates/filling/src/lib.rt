// Mending over any check list: the unknown bits of a recorded word that its checks decide, one after another.
#![tactic(auto)]

ghost use Rattle.std.specs.Prelude.{◌≡◌, ◌<◌, length};
ghost use Rattle.refusal.specs.Answers.{outcome_of};
ghost use Rattle.tanner.specs.Flat.{FlatChecks, rows_of};
ghost use Rattle.lists.specs.Below.{Below};
ghost use Rattle.filling.specs.Filling.{setting_in, lowest, filled_word, filled_places, listed};
ghost use Rattle.filling.specs.Calls.{next_of, above_two, word_refusals, FilledAs};

use refusal::Refusal;

// What is set next: a position, and its bit.
#[derive(Clone, Copy, Debug, PartialEq, Eq)]
pub struct Setting {
    pub at: u16,
    pub bit: u8,
}

// Whether a byte is above 2.
fn above_two(word: &[u8]) -> bool
    ensures { result ≡ above_two word.now }
{
    for &b in word {
        if b > 2 {
            return true;
        }
    }
    false
}

// The unknown bit of a check that has exactly one. All its bytes are XORed: the unknown one is 2, and has no part in the low bit.
fn next_in(positions: &[u16], word: &[u8]) -> Option<Setting>
    requires { Below (length word.now) positions.now }
    ensures { next_of result ≡ setting_in positions.now word.now }
{
    let mut unknowns: usize = 0;
    let mut at: u16 = 0;
    let mut odd: u8 = 0;
    for &p in positions {
        let b = word[p as usize];
        if b == 2 {
            unknowns += 1;
            at = p;
        }
        odd ^= b;
    }
    if unknowns == 1 {
        return Some(Setting { at, bit: odd % 2 });
    }
    None
}

// The unknown bit of the lowest-numbered check that has exactly one.
fn next_setting(starts: &[u16], flat: &[u16], word: &[u8]) -> Option<Setting>
    requires { FlatChecks starts.now flat.now (length word.now) }
    ensures { next_of result ≡ lowest (rows_of starts.now flat.now) word.now }
{
    for c in 0..starts.len() - 1 {
        let a = starts[c] as usize;
        let b = starts[c + 1] as usize;
        if let Some(next) = next_in(&flat[a..b], word) {
            return Some(next);
        }
    }
    None
}

// Sets one bit after another, and lists their positions.
fn fill(starts: &[u16], flat: &[u16], word: &mut [u8], places: &mut [u16]) -> u16
    requires flat_checks { FlatChecks starts.now flat.now (length word.old) }
    requires places_len { length places.old ≡ length word.old }
    requires places_len_bound { length places.old < 65536 }
    ensures value { result ≡ length (filled_places (rows_of starts.now flat.now) word.old) }
    ensures word_after { word.new ≡ filled_word (rows_of starts.now flat.now) word.old }
    ensures places_after { places.new ≡ listed (filled_places (rows_of starts.now flat.now) word.old) places.old }
{
    for n in 0..places.len() {
        let Some(next) = next_setting(starts, flat, word) else {
            return n as u16;
        };
        let at = next.at as usize;
        word[at] = next.bit;
        places[n] = next.at;
    }
    places.len() as u16
}

// A word of a code of length n, with the lengths and the bytes tested.
pub fn fill_over(
    starts: &[u16],
    flat: &[u16],
    n: usize,
    word: &mut [u8],
    places: &mut [u16],
) -> Result<u16, Refusal>
    requires flat_checks { FlatChecks starts.now flat.now n }
    requires n_bound { n < 65536 }
    ensures { FilledAs (word_refusals n word.old places.old) (rows_of starts.now flat.now)
        word.old places.old (outcome_of result) word.new places.new }
{
    if word.len() != n {
        return Err(Refusal::InputLength);
    }
    if places.len() != n {
        return Err(Refusal::OutputLength);
    }
    if above_two(word) {
        return Err(Refusal::ErasureByte);
    }
    Ok(fill(starts, flat, word, places))
}
