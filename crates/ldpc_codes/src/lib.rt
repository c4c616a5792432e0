// The staircase codes: encoding and counting by a code's number, each call with its refusals.
#![tactic(auto)]

ghost use Rattle.std.specs.Prelude.{◌≡◌};
ghost use Rattle.refusal.specs.Outcome.{judged, kept};
ghost use Rattle.refusal.specs.Answers.{outcome_of};
ghost use Rattle.construction.specs.Codes.{block_length};
ghost use Rattle.staircase.specs.Codes.{code_of};
ghost use Rattle.tanner.specs.Found.{counting_of};
ghost use Rattle.ldpc_codes.specs.Calls.{encode_refusals, encoded_by, weight_refusals, syndrome_by};

use construction::codes::{N512R12, N512R34, N576R23};
use refusal::Refusal;
use tanner::Counted;

// N and K of the code with that number: any above 1 is code 2.
pub fn values_of(code: u32) -> usize
    ensures { result ≡ block_length (code_of code) }
{
    match code {
        0 => N512R12::N,
        1 => N576R23::N,
        _ => N512R34::N,
    }
}

pub fn bits_of(code: u32) -> usize
    ensures { result ≡ (code_of code).k }
{
    match code {
        0 => N512R12::K,
        1 => N576R23::K,
        _ => N512R34::K,
    }
}

// The codeword of a message of K bytes, whose low bits are its bits.
pub fn encode(code: u32, message: &[u8], codeword: &mut [u8]) -> Result<(), Refusal>
    ensures result_value { outcome_of result ≡ judged (encode_refusals code message.now codeword.old) tt }
    ensures codeword_after { codeword.new
        ≡ kept (encode_refusals code message.now codeword.old) codeword.old (encoded_by code message.now) }
{
    if code > 2 {
        return Err(Refusal::UnknownCode);
    }
    if message.len() != bits_of(code) {
        return Err(Refusal::InputLength);
    }
    if codeword.len() != values_of(code) {
        return Err(Refusal::OutputLength);
    }
    parities::encode(code, message, codeword);
    Ok(())
}

// How many checks the low bits of the word's first N bytes leave unsatisfied, and the first of them.
pub fn syndrome_weight(code: u32, hard: &[u8]) -> Result<Counted, Refusal>
    ensures { counting_of result ≡ judged (weight_refusals code hard.now) (syndrome_by code hard.now) }
{
    if code > 2 {
        Err(Refusal::UnknownCode)
    } else if hard.len() < values_of(code) {
        Err(Refusal::WordTooShort)
    } else {
        Ok(stair_counts::counted(code, hard))
    }
}
