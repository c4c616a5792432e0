// Why a frame is open: the frame is decoded, and the first reason that applies is the answer.
#![tactic(auto)]

ghost use Rattle.std.specs.Prelude.{◌≡◌, ◌≤◌, length};
ghost use Rattle.refusal.specs.Answers.{outcome_of};
ghost use Rattle.work_area.specs.Area.{cleared};
ghost use Rattle.rounds.specs.Rounds.{chosen};
ghost use Rattle.numbered.specs.Numbers.{code_number};
ghost use Rattle.batch.specs.Codes.{size_n, decode_of};
ghost use Rattle.reason.specs.Under.{reason_under};
ghost use Rattle.reason.specs.Calls.{asked, Answered};

use first_reason::Reason;
use numbered::Code;
use refusal::Refusal;
use work_area::WORK;

// The frame decoded, and its reason; the chosen word's bits go to `word`.
pub fn find_reason(
    code: Code,
    rule: u32,
    scale: f32,
    limit: u16,
    values: &[f32],
    word: &mut [u8],
    work: &mut [f32],
) -> Reason
    requires values_len { length values.now ≡ size_n (code_number code) }
    requires word_len { length word.old ≡ size_n (code_number code) }
    requires in_bounds { 3070 ≤ length work.old }
    ensures value { result ≡ reason_under (code_number code) rule scale values.now limit }
    ensures word_after { word.new ≡ chosen (decode_of (code_number code) rule scale values.now) limit }
    ensures work_after { work.new ≡ cleared work.old }
{
    let told = one_frame::decode_frame(code, rule, scale, limit, values, word, work);
    work_area::clear_area(work);
    let first = told.first;
    first_reason::reason_of(u32::from(code), first, values, word)
}

// Why a frame of the code is open, or that it is clean: the word that its decode chooses goes to `word`, all N bits.
pub fn frame_reason(
    code: u32,
    rule: u32,
    scale: f32,
    limit: u16,
    values: &[f32],
    word: &mut [u8],
    work: &mut [f32],
) -> Result<Reason, Refusal>
    ensures { Answered (asked code rule scale limit values.now word.old work.old)
        (outcome_of result) word.new work.new }
{
    let known = Code::try_from(code)?;
    if rule > 4 {
        return Err(Refusal::UnknownRule);
    }
    if batch_refusals::rule_not_of_code(code, rule) {
        return Err(Refusal::RuleNotOfCode);
    }
    let n = known.n();
    if values.len() != n {
        return Err(Refusal::InputLength);
    }
    if word.len() != n {
        return Err(Refusal::OutputLength);
    }
    if work.len() < WORK {
        return Err(Refusal::WorkTooShort);
    }
    Ok(find_reason(known, rule, scale, limit, values, word, work))
}
