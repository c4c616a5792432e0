// A batch with a list of group sizes: the frames of a move are delivered together, or none of them is.
#![tactic(auto)]

ghost use Rattle.std.specs.Prelude.{◌≡◌, ◌++◌, ◌*◌, ◌≤◌, length};
ghost use Rattle.refusal.specs.Outcome.{judged};
ghost use Rattle.refusal.specs.Answers.{outcome_of};
ghost use Rattle.batch.specs.Codes.{size_n, size_k};
ghost use Rattle.batch.specs.Pairs.{pairs_of, frames_of, AllWithin};
ghost use Rattle.batch.specs.Calls.{lent, batch, refusals_of};
ghost use Rattle.clean_frames.specs.CleanFrames.{clean_of};
ghost use Rattle.grouping.specs.Grouping.{size_refusals, total, delivered};
ghost use Rattle.groups.specs.Groups.{clean_from, Answered};

use batch_refusals::{MOST_PAIRS, Room};
use refusal::Refusal;

// ---- refusals

// Whether the call is turned down, and by which number: as the batch, and then for its sizes.
fn groups_fault(
    code: u32,
    rule: u32,
    values: usize,
    pairs: &[u32],
    sizes: &[u32],
    room: Room,
) -> Result<(), Refusal>
    ensures { outcome_of result ≡ judged
        (refusals_of code rule values (pairs_of pairs.now) room ++ size_refusals (length (pairs_of pairs.now)) sizes.now) tt }
{
    batch_refusals::batch_fault(code, rule, values, pairs, room)?;
    grouping::sizes_fault(pairs.len() / 2, sizes)
}

// ---- the groups

// Whether each frame is clean.
fn clean_list(
    code: u32,
    values: &[f32],
    pairs: &[u32],
    counts: &[u16],
    bits: &[u8],
    clean: &mut [bool],
)
    requires all_within { AllWithin (size_n code) (length values.now) (pairs_of pairs.now) }
    requires pairs_len_bound { length (pairs_of pairs.now) ≤ 24 }
    requires counts_len { (length counts.now ≡ length (pairs_of pairs.now)) × (length bits.now ≡ length (pairs_of pairs.now) * size_k code) }
    requires clean_len { length clean.old ≡ length (pairs_of pairs.now) }
    ensures { clean.new
        ≡ clean_from (clean_of code (frames_of values.now (pairs_of pairs.now)) counts.now bits.now)
        0 (length clean.old) }
{
    for (j, frame) in clean.iter_mut().enumerate() {
        *frame = clean_frames::clean_at(code, values, pairs, j, counts, bits);
    }
}

// The groups of frames that a batch has written.
fn deliver_groups(
    code: u32,
    values: &[f32],
    pairs: &[u32],
    sizes: &[u32],
    counts: &[u16],
    bits: &mut [u8],
)
    requires all_within { AllWithin (size_n code) (length values.now) (pairs_of pairs.now) }
    requires pairs_len_bound { length (pairs_of pairs.now) ≤ 24 }
    requires counts_len { (length counts.now ≡ length (pairs_of pairs.now)) × (length bits.old ≡ length (pairs_of pairs.now) * size_k code) }
    requires sizes_in_bounds { total sizes.now ≤ length (pairs_of pairs.now) }
    ensures { bits.new ≡ delivered (size_k code) sizes.now
        (clean_from (clean_of code (frames_of values.now (pairs_of pairs.now)) counts.now bits.old)
        0 (length (pairs_of pairs.now)))
        bits.old }
{
    let n = pairs.len() / 2;
    let mut clean = [false; MOST_PAIRS];
    clean_list(code, values, pairs, counts, bits, &mut clean[..n]);
    grouping::close_groups(batch_refusals::message_bits(code), sizes, &clean[..n], bits);
}

// ---- the call

// The batch over flat slices with group sizes. Every test comes before the first write, that of the sizes too: the batch is not turned down after it.
pub fn decode_groups(
    code: u32,
    rule: u32,
    limit: u16,
    scale: f32,
    values: &[f32],
    pairs: &[u32],
    sizes: &[u32],
    bits: &mut [u8],
    counts: &mut [u16],
    rounds: &mut [u16],
    firsts: &mut [u16],
    work: &mut [f32],
) -> Result<(), Refusal>
    ensures { Answered
        (batch code rule limit scale values.now (pairs_of pairs.now)
        (lent bits.old counts.old rounds.old firsts.old work.old))
        sizes.now
        (outcome_of result)
        (lent bits.new counts.new rounds.new firsts.new work.new) }
{
    let room = Room::of(bits, counts, rounds, firsts, work);
    groups_fault(code, rule, values.len(), pairs, sizes, room)?;
    let told = batch::decode_batch(
        code, rule, limit, scale, values, pairs, bits, counts, rounds, firsts, work,
    );
    deliver_groups(code, values, pairs, sizes, counts, bits);
    told
}
