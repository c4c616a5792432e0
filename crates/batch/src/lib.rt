// The batch: many frames of one code, decoded one after another in one work area.
#![tactic(auto)]

ghost use Rattle.std.specs.Prelude.{◌≡◌};
ghost use Rattle.refusal.specs.Answers.{outcome_of};
ghost use Rattle.rules.specs.Rules.{as_stored};
ghost use Rattle.batch.specs.Pairs.{pairs_of};
ghost use Rattle.batch.specs.Calls.{lent, batch, written, Answered};
ghost use Rattle.batch.specs.Steps.{Fitting};

use batch_refusals::Room;
use refusal::Refusal;

// All frames, in place order.
fn decode_frames(
    code: u32,
    rule: u32,
    scale: f32,
    limit: u16,
    values: &[f32],
    pairs: &[u32],
    bits: &mut [u8],
    counts: &mut [u16],
    rounds: &mut [u16],
    firsts: &mut [u16],
    work: &mut [f32],
)
    requires { Fitting (batch code rule limit scale values.now (pairs_of pairs.now)
        (lent bits.old counts.old rounds.old firsts.old work.old)) }
    ensures { lent bits.new counts.new rounds.new firsts.new work.new
        ≡ written (batch code rule limit scale values.now (pairs_of pairs.now)
        (lent bits.old counts.old rounds.old firsts.old work.old)) }
{
    for j in 0..counts.len() {
        one_frame::decode_place(
            code,
            rule,
            scale,
            limit,
            values,
            pairs[j * 2],
            j,
            bits,
            counts,
            rounds,
            firsts,
            work,
        );
    }
    work_area::clear_area(work);
}

// The batch over flat slices: `pairs` has an offset and a length in turn.
pub fn decode_batch(
    code: u32,
    rule: u32,
    limit: u16,
    scale: f32,
    values: &[f32],
    pairs: &[u32],
    bits: &mut [u8],
    counts: &mut [u16],
    rounds: &mut [u16],
    firsts: &mut [u16],
    work: &mut [f32],
) -> Result<(), Refusal>
    ensures { Answered
        (batch code rule limit scale values.now (pairs_of pairs.now)
        (lent bits.old counts.old rounds.old firsts.old work.old))
        (outcome_of result)
        (lent bits.new counts.new rounds.new firsts.new work.new) }
{
    let room = Room::of(bits, counts, rounds, firsts, work);
    batch_refusals::batch_fault(code, rule, values.len(), pairs, room)?;
    decode_frames(
        code, rule, scale, limit, values, pairs, bits, counts, rounds, firsts, work,
    );
    Ok(())
}

// The batch over flat slices, of a batch that was stored when rule 3 stood for rule 0.
pub fn decode_stored_batch(
    code: u32,
    rule: u32,
    limit: u16,
    scale: f32,
    values: &[f32],
    pairs: &[u32],
    bits: &mut [u8],
    counts: &mut [u16],
    rounds: &mut [u16],
    firsts: &mut [u16],
    work: &mut [f32],
) -> Result<(), Refusal>
    ensures { Answered
        (batch code (as_stored rule) limit scale values.now (pairs_of pairs.now)
        (lent bits.old counts.old rounds.old firsts.old work.old))
        (outcome_of result)
        (lent bits.new counts.new rounds.new firsts.new work.new) }
{
    decode_batch(
        code,
        rules::stored_rule(rule),
        limit,
        scale,
        values,
        pairs,
        bits,
        counts,
        rounds,
        firsts,
        work,
    )
}
