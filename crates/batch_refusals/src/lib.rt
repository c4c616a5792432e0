// What a batch is refused for: the numbers and the lengths, then the pairs, one after another; and the sizes by which they are measured.
#![tactic(auto)]

ghost use Rattle.std.specs.Prelude.{◌≡◌, ◌<◌, length};
ghost use Rattle.refusal.specs.Outcome.{judged};
ghost use Rattle.refusal.specs.Answers.{outcome_of};
ghost use Rattle.numbered.specs.Codes.{size_n, size_k};
ghost use Rattle.batch_refusals.specs.Pairs.{pair, pairs_of};
ghost use Rattle.batch_refusals.specs.Refusals.{rule_not_of_code, pair_tests, pair_refusals, head_refusals, refusals_of};
ghost use Rattle.batch_refusals.specs.Steps.{next_seen, seen_all};

use refusal::Refusal;
use work_area::WORK;

// How many pairs a batch may have.
pub const MOST_PAIRS: usize = 24;

// How many places are lent for each output, and for the work area.
#[derive(Clone, Copy, Debug, PartialEq, Eq)]
pub struct Room {
    pub bits: usize,
    pub counts: usize,
    pub rounds: usize,
    pub firsts: usize,
    pub work: usize,
}

impl Room {
    // That of the slices lent to a call.
    pub fn of(bits: &[u8], counts: &[u16], rounds: &[u16], firsts: &[u16], work: &[f32]) -> Room
        ensures { result ≡ record {
          bits = length bits.now;
          counts = length counts.now;
          rounds = length rounds.now;
          firsts = length firsts.now;
          work = length work.now;
        } }
    {
        Room {
            bits: bits.len(),
            counts: counts.len(),
            rounds: rounds.len(),
            firsts: firsts.len(),
            work: work.len(),
        }
    }
}

// N of a code.
pub fn frame_values(code: u32) -> usize
    ensures { result ≡ size_n code }
{
    if code > 2 {
        return ldpc::N;
    }
    ldpc_codes::values_of(code)
}

// K of a code.
pub fn message_bits(code: u32) -> usize
    ensures { result ≡ size_k code }
{
    if code > 2 {
        return ldpc::K;
    }
    ldpc_codes::bits_of(code)
}

// ---- refusals

// Whether that rule is none of the code's.
pub fn rule_not_of_code(code: u32, rule: u32) -> bool
    ensures { result ≡ rule_not_of_code code rule }
{
    if code != 3 {
        return rule == 4;
    }
    if rule == 1 {
        return true;
    }
    rule == 2
}

// The numbers and the lengths, in the order of document 01's table.
pub fn head_fault(code: u32, rule: u32, pairs: usize, room: Room) -> Result<(), Refusal>
    ensures { outcome_of result ≡ judged (head_refusals code rule pairs room) tt }
{
    if code > 3 {
        return Err(Refusal::UnknownCode);
    }
    if rule > 4 {
        return Err(Refusal::UnknownRule);
    }
    if rule_not_of_code(code, rule) {
        return Err(Refusal::RuleNotOfCode);
    }
    if pairs > MOST_PAIRS {
        return Err(Refusal::TooManyPairs);
    }
    if room.bits != pairs * message_bits(code) {
        return Err(Refusal::OutputLength);
    }
    if room.counts != pairs {
        return Err(Refusal::OutputLength);
    }
    if room.rounds != pairs {
        return Err(Refusal::OutputLength);
    }
    if room.firsts != pairs {
        return Err(Refusal::OutputLength);
    }
    if room.work < WORK {
        return Err(Refusal::WorkTooShort);
    }
    Ok(())
}

// One pair, after one that ends at `end`.
fn pair_fault(
    n: usize,
    values: usize,
    end: usize,
    offset: usize,
    size: usize,
) -> Result<(), Refusal>
    requires offset_bound { offset < 4294967296 }
    requires size_bound { size < 4294967296 }
    ensures { outcome_of result ≡ judged (pair_tests n values end (pair offset size)) tt }
{
    if size != n {
        return Err(Refusal::PairLength);
    }
    if offset < end {
        return Err(Refusal::PairOrder);
    }
    if values < offset + size {
        return Err(Refusal::PairPastEnd);
    }
    Ok(())
}

// One pair more.
pub fn next_pair(
    seen: Result<usize, Refusal>,
    n: usize,
    values: usize,
    offset: u32,
    size: u32,
) -> Result<usize, Refusal>
    ensures { outcome_of result ≡ next_seen n values (outcome_of seen) (pair offset size) }
{
    let end = seen?;
    let from = offset as usize;
    let long = size as usize;
    pair_fault(n, values, end, from, long)?;
    Ok(from + long)
}

// The answer, where no pair is left.
pub fn seen_all(seen: Result<usize, Refusal>) -> Result<(), Refusal>
    ensures { outcome_of result ≡ seen_all (outcome_of seen) }
{
    seen?;
    Ok(())
}

// The pairs, one after another: the first faulty one decides.
fn pairs_fault(n: usize, values: usize, pairs: &[u32]) -> Result<(), Refusal>
    ensures { outcome_of result ≡ judged (pair_refusals n values 0 (pairs_of pairs.now)) tt }
{
    let mut seen = Ok(0);
    for &[offset, size] in pairs.as_chunks::<2>().0 {
        seen = next_pair(seen, n, values, offset, size);
    }
    seen_all(seen)
}

// Whether a batch over so many values is turned down, and by which number: the numbers and the lengths, then the pairs.
pub fn batch_fault(
    code: u32,
    rule: u32,
    values: usize,
    pairs: &[u32],
    room: Room,
) -> Result<(), Refusal>
    ensures { outcome_of result ≡ judged (refusals_of code rule values (pairs_of pairs.now) room) tt }
{
    head_fault(code, rule, pairs.len() / 2, room)?;
    pairs_fault(frame_values(code), values, pairs)
}
