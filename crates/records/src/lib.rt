// The batch over a lent list of pair records. They are read where they lie, by a thin batch call: a record at a time, which is taken by value from
// there on. Crate `one_frame` does the work; the check is `record_check`'s.
#![tactic(auto)]

ghost use Rattle.std.specs.Prelude.{◌≡◌};
ghost use Rattle.refusal.specs.Answers.{outcome_of};
ghost use Rattle.work_area.specs.Area.{cleared};
ghost use Rattle.batch.specs.Codes.{size_n, size_k, decode_of};
ghost use Rattle.batch.specs.Pairs.{pair, frame_of};
ghost use Rattle.batch.specs.Calls.{lent, batch, written, Answered};
ghost use Rattle.batch.specs.Steps.{Fitting, PlaceFits, placed};
ghost use Rattle.record_check.specs.Fields.{pairs_of};

use batch_refusals::Room;
use record_check::Pair;
use refusal::Refusal;

// The frame of one record, decoded to place j of each output.
fn decode_record(
    code: u32,
    rule: u32,
    limit: u16,
    scale: f32,
    values: &[f32],
    p: Pair,
    j: usize,
    bits: &mut [u8],
    counts: &mut [u16],
    rounds: &mut [u16],
    firsts: &mut [u16],
    work: &mut [f32],
)
    requires { PlaceFits code p.offset j values.now (lent bits.old counts.old rounds.old firsts.old work.old) }
    ensures { lent bits.new counts.new rounds.new firsts.new (cleared work.new)
        ≡ placed (decode_of code rule scale (frame_of values.now (pair p.offset (size_n code)))) limit (size_k code) j
        (lent bits.old counts.old rounds.old firsts.old work.old) }
{
    one_frame::decode_place(
        code, rule, scale, limit, values, p.offset, j, bits, counts, rounds, firsts, work,
    );
}

// All frames, in place order.
fn decode_records(
    code: u32,
    rule: u32,
    limit: u16,
    scale: f32,
    values: &[f32],
    pairs: &[Pair],
    bits: &mut [u8],
    counts: &mut [u16],
    rounds: &mut [u16],
    firsts: &mut [u16],
    work: &mut [f32],
)
    requires { Fitting (batch code rule limit scale values.now (pairs_of pairs.now)
        (lent bits.old counts.old rounds.old firsts.old work.old)) }
    ensures { lent bits.new counts.new rounds.new firsts.new work.new
        ≡ written (batch code rule limit scale values.now (pairs_of pairs.now)
        (lent bits.old counts.old rounds.old firsts.old work.old)) }
{
    for (j, &p) in pairs.iter().enumerate() {
        decode_record(
            code, rule, limit, scale, values, p, j, bits, counts, rounds, firsts, work,
        );
    }
    work_area::clear_area(work);
}

// The batch over pair records: "a lent list of pair records, each an offset and a length".
pub fn decode_pairs(
    code: u32,
    rule: u32,
    limit: u16,
    scale: f32,
    values: &[f32],
    pairs: &[Pair],
    bits: &mut [u8],
    counts: &mut [u16],
    rounds: &mut [u16],
    firsts: &mut [u16],
    work: &mut [f32],
) -> Result<(), Refusal>
    ensures { Answered
        (batch code rule limit scale values.now (pairs_of pairs.now)
        (lent bits.old counts.old rounds.old firsts.old work.old))
        (outcome_of result)
        (lent bits.new counts.new rounds.new firsts.new work.new) }
{
    let room = Room::of(bits, counts, rounds, firsts, work);
    record_check::batch_fault(code, rule, values.len(), pairs, room)?;
    decode_records(
        code, rule, limit, scale, values, pairs, bits, counts, rounds, firsts, work,
    );
    Ok(())
}
