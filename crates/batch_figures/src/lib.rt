// Reception figures of batches: what a batch's call left, added to a total.
#![tactic(auto)]

ghost use Rattle.std.specs.Prelude.{◌≡◌, ◌*◌, ◌≤◌, length};
ghost use Rattle.refusal.specs.Outcome.{judged};
ghost use Rattle.refusal.specs.Answers.{outcome_of};
ghost use Rattle.batch.specs.Codes.{size_n, size_k};
ghost use Rattle.batch.specs.Pairs.{pairs_of, AllWithin};
ghost use Rattle.figures.specs.Totals.{summed_of, totals_of, sums, join_refusals};
ghost use Rattle.batch_figures.specs.Results.{results, batch_frames, result_refusals, added};
ghost use Rattle.batch_figures.specs.Steps.{with_frame};

use batch_refusals::Room;
use figures::Totals;
use refusal::Refusal;
use work_area::WORK;

// ---- refusals

// Whether the results are turned down, and by which number: as the batch that wrote them, by a rule that every code takes.
fn results_fault(
    code: u32,
    values: &[f32],
    pairs: &[u32],
    bits: &[u8],
    counts: &[u16],
    rounds: &[u16],
) -> Result<(), Refusal>
    ensures { outcome_of result ≡ judged (result_refusals
        (results code values.now (pairs_of pairs.now) bits.now counts.now rounds.now)) tt }
{
    let room = Room {
        bits: bits.len(),
        counts: counts.len(),
        rounds: rounds.len(),
        firsts: pairs.len() / 2,
        work: WORK,
    };
    batch_refusals::batch_fault(code, 0, values.len(), pairs, room)
}

// ---- the frames

// The sum with one frame more.
fn with_frame(
    sum: Result<Totals, Refusal>,
    count: u16,
    rounds: u16,
    clean: bool,
) -> Result<Totals, Refusal>
    ensures { summed_of result ≡ with_frame (summed_of sum) (record { count = count; rounds = rounds; clean = clean }) }
{
    let total = sum?;
    figures::join(total, figures::of_frame(count, rounds, clean))
}

// The total with all frames, in place order.
fn add_frames(
    total: Totals,
    code: u32,
    values: &[f32],
    pairs: &[u32],
    bits: &[u8],
    counts: &[u16],
    rounds: &[u16],
) -> Result<Totals, Refusal>
    requires all_within { AllWithin (size_n code) (length values.now) (pairs_of pairs.now) }
    requires pairs_len_bound { length (pairs_of pairs.now) ≤ 24 }
    requires counts_len { (length counts.now ≡ length (pairs_of pairs.now)) × (length bits.now ≡ length (pairs_of pairs.now) * size_k code) }
    requires rounds_len { length rounds.now ≡ length (pairs_of pairs.now) }
    ensures { summed_of result ≡ (let t = totals_of (batch_frames
        (results code values.now (pairs_of pairs.now) bits.now counts.now rounds.now)) in
        judged (join_refusals total t) (sums total t)) }
{
    let mut sum = Ok(total);
    for j in 0..counts.len() {
        let clean = clean_frames::clean_at(code, values, pairs, j, counts, bits);
        sum = with_frame(sum, counts[j], rounds[j], clean);
    }
    sum
}

// ---- the call

// The total with the frames of a batch: of its values and pairs, and of the bits, counts and rounds that its call left.
pub fn add_batch(
    total: Totals,
    code: u32,
    values: &[f32],
    pairs: &[u32],
    bits: &[u8],
    counts: &[u16],
    rounds: &[u16],
) -> Result<Totals, Refusal>
    ensures { summed_of result ≡ added total
        (results code values.now (pairs_of pairs.now) bits.now counts.now rounds.now) }
{
    results_fault(code, values, pairs, bits, counts, rounds)?;
    add_frames(total, code, values, pairs, bits, counts, rounds)
}
