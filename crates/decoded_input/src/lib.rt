// The batch of a program's input, decoded into lent arrays.
#![tactic(auto)]

ghost use Rattle.std.specs.Prelude.{◌≡◌, false, ◌≤◌, length, take};
ghost use Rattle.refusal.specs.Outcome.{accepted, judged};
ghost use Rattle.refusal.specs.Answers.{outcome_of};
ghost use Rattle.batch.specs.Pairs.{pairs_of};
ghost use Rattle.batch.specs.Calls.{lent, batch, refusals, Answered};
ghost use Rattle.batch_input.specs.Input.{code_of, rule_of, limit_of, scale_of, pair_numbers, values_of, malformed};
ghost use Rattle.batch_input.specs.Handed.{batch_in};
ghost use Rattle.decoded_input.specs.Fronts.{held, sizes_of, decoded_of, Fronts};

use refusal::Refusal;
use work_area::WORK;

// Room for the bits of 24 frames, and for a number a frame: each ensures its length alone.

pub fn bits_room() -> [u8; 9216]
    ensures { 9216 ≡ length result }
{
    [0; 9216]
}

pub fn numbers_room() -> [u16; 24]
    ensures { 24 ≡ length result }
{
    [0; 24]
}

// The number of frames that have room in the outputs: none where there are too many.
fn frames_held(frames: usize) -> usize
    ensures { result ≡ held frames }
{
    if frames < 25 { frames } else { 0 }
}

// The batch call, with the numbers of the header.
fn decode_input(
    input: &[u8],
    values: &[f32],
    pairs: &[u32],
    bits: &mut [u8],
    counts: &mut [u16],
    rounds: &mut [u16],
    firsts: &mut [u16],
    work: &mut [f32],
) -> Result<(), Refusal>
    requires { 12 ≤ length input.now }
    ensures { Answered
        (batch (code_of input.now) (rule_of input.now) (limit_of input.now) (scale_of input.now)
        values.now (pairs_of pairs.now)
        (lent bits.old counts.old rounds.old firsts.old work.old))
        (outcome_of result)
        (lent bits.new counts.new rounds.new firsts.new work.new) }
{
    let head = batch_input::read_header(input);
    batch::decode_batch(
        head.code, head.rule, head.limit, head.scale, values, pairs, bits, counts, rounds, firsts,
        work,
    )
}

// What the batch of an input comes to: how many frames it has, and how many bits they have.
#[derive(Clone, Copy, Debug, PartialEq, Eq)]
pub struct Decoded {
    pub frames: usize,
    pub bits: usize,
}

// The batch of an input that is not malformed, its values and pairs read: what it writes lies at the fronts of the arrays.
pub fn decode_fronts(
    input: &[u8],
    values: &[f32],
    pairs: &[u32],
    bits: &mut [u8],
    counts: &mut [u16],
    rounds: &mut [u16],
    firsts: &mut [u16],
) -> Result<Decoded, Refusal>
    requires input_value { malformed input.now ≡ false }
    requires values_value { (values.now ≡ values_of input.now) × (pairs.now ≡ take 50 (pair_numbers input.now)) }
    requires in_bounds { (9216 ≤ length bits.old) × (24 ≤ length counts.old) }
    requires in_bounds_2 { (24 ≤ length rounds.old) × (24 ≤ length firsts.old) }
    ensures result_value { decoded_of result ≡ judged (refusals (batch_in input.now)) (sizes_of input.now) }
    ensures fronts { decoded_of result ≡ accepted (sizes_of input.now) →
        Fronts input.now bits.new counts.new rounds.new firsts.new }
{
    let n = frames_held(batch_input::pair_count(input));
    let size = n * batch_refusals::message_bits(input[0] as u32);
    let mut work = [0.0f32; WORK];
    decode_input(
        input,
        values,
        pairs,
        &mut bits[..size],
        &mut counts[..n],
        &mut rounds[..n],
        &mut firsts[..n],
        &mut work,
    )?;
    Ok(Decoded {
        frames: n,
        bits: size,
    })
}
