// The soft decoders of the staircase codes and of (174,91): the round loop of `belief` at each code.
#![tactic(auto)]

ghost use Rattle.decoders.specs.Calls.{decoding_of, Answered, soft_with, soft, ft8_soft};

use numbered::Code;
use refusal::Refusal;
use rounds::Decoded;
use softmath::DecodeRule;

// A staircase decode by the rule with that number, which is `decode_soft_with`.
pub fn decode_soft_with(
    code: u32,
    rule: u32,
    scale: f32,
    limit: u16,
    llr: &[f32],
    bits: &mut [u8],
    work: &mut [f32],
) -> Result<Decoded, Refusal>
    ensures { Answered (soft_with code rule scale limit llr.now bits.old work.old)
        (decoding_of result) bits.new work.new }
{
    if code >= 3 {
        return Err(Refusal::UnknownCode);
    }
    if rule > 4 {
        return Err(Refusal::UnknownRule);
    }
    if rule == 4 {
        return Err(Refusal::RuleNotOfCode);
    }
    if llr.len() != ldpc_codes::values_of(code) {
        return Err(Refusal::InputLength);
    }
    if bits.len() != ldpc_codes::bits_of(code) {
        return Err(Refusal::OutputLength);
    }
    if work.len() < work_area::WORK {
        return Err(Refusal::WorkTooShort);
    }
    Ok(belief::decode(
        Code::of_number(code),
        rules::staircase_rule(rule, scale),
        limit,
        llr,
        bits,
        work,
    ))
}

// The same by sum-product, which is `decode_soft`.
pub fn decode_soft(
    code: u32,
    limit: u16,
    llr: &[f32],
    bits: &mut [u8],
    work: &mut [f32],
) -> Result<Decoded, Refusal>
    ensures { Answered (soft code limit llr.now bits.old work.old)
        (decoding_of result) bits.new work.new }
{
    decode_soft_with(code, 0, 0.0, limit, llr, bits, work)
}

// A (174,91) decode by its own check step, all 174 bits.
pub fn ldpc_decode_soft(
    llr: &[f32],
    limit: u16,
    plain: &mut [u8],
    work: &mut [f32],
) -> Result<Decoded, Refusal>
    ensures { Answered (ft8_soft llr.now limit plain.old work.old)
        (decoding_of result) plain.new work.new }
{
    if llr.len() != ldpc::N {
        return Err(Refusal::InputLength);
    }
    if plain.len() != ldpc::N {
        return Err(Refusal::OutputLength);
    }
    if work.len() < work_area::WORK {
        return Err(Refusal::WorkTooShort);
    }
    Ok(belief::decode(Code::Ft8, DecodeRule::Ft8, limit, llr, plain, work))
}
