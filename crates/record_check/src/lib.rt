// A lent list of pair records, each an offset and a length: what a record is, and the check of a batch over such a list, which reads them where they lie.
#![tactic(auto)]

ghost use Rattle.std.specs.Prelude.{◌≡◌};
ghost use Rattle.refusal.specs.Outcome.{judged};
ghost use Rattle.refusal.specs.Answers.{outcome_of};
ghost use Rattle.batch_refusals.specs.Refusals.{refusals_of};
ghost use Rattle.batch_refusals.specs.Steps.{next_seen};
ghost use Rattle.record_check.specs.Fields.{pair_of, pairs_of};

use batch_refusals::Room;
use refusal::Refusal;

// A pair: where a frame's values begin, and how many they are. It lies in memory as C lays out two numbers.
#[repr(C)]
#[derive(Clone, Copy, Debug, PartialEq, Eq)]
pub struct Pair {
    pub offset: u32,
    pub length: u32,
}

// One record more in the check.
fn next_record(
    seen: Result<usize, Refusal>,
    n: usize,
    values: usize,
    p: Pair,
) -> Result<usize, Refusal>
    ensures { outcome_of result ≡ next_seen n values (outcome_of seen) (pair_of p) }
{
    batch_refusals::next_pair(seen, n, values, p.offset, p.length)
}

// The check: whether a batch over these records is turned down, and by which number. The records are read where the numbers and the lengths,
// that of the list among them, are good.
pub fn batch_fault(
    code: u32,
    rule: u32,
    values: usize,
    pairs: &[Pair],
    room: Room,
) -> Result<(), Refusal>
    ensures { outcome_of result ≡ judged (refusals_of code rule values (pairs_of pairs.now) room) tt }
{
    batch_refusals::head_fault(code, rule, pairs.len(), room)?;
    let n = batch_refusals::frame_values(code);
    let mut seen = Ok(0);
    for &p in pairs {
        seen = next_record(seen, n, values, p);
    }
    batch_refusals::seen_all(seen)
}
