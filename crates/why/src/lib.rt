// Why a frame of a batch is open, as a line of text: the program's input read, and what is printed for it written into a lent buffer.
#![tactic(auto)]

ghost use Rattle.std.specs.Prelude.{◌≡◌, [], false, ◌+◌, ◌<◌, ◌≤◌, length, take};
ghost use Rattle.refusal.specs.Outcome.{judged};
ghost use Rattle.refusal.specs.Answers.{outcome_of};
ghost use Rattle.text.specs.Written.{Written};
ghost use Rattle.batch.specs.Codes.{size_n};
ghost use Rattle.batch.specs.Pairs.{pairs_of, AllWithin};
ghost use Rattle.batch.specs.Calls.{lent, batch};
ghost use Rattle.batch_input.specs.Input.{code_of, rule_of, limit_of, scale_of, pair_numbers, values_of, malformed};
ghost use Rattle.why.specs.Why.{asked_refusals, frame_at, frame_line, why_of, asked_line};

use batch_refusals::Room;
use numbered::Code;
use refusal::Refusal;
use work_area::WORK;

// ---- the frame asked about

fn word_room() -> [u8; 576]
    ensures { 576 ≡ length result }
{
    [0; 576]
}

// Whether a batch and a place in it are turned down, and by which number: the batch's refusals, and then the place.
fn input_fault(place: u16, input: &[u8], values: &[f32], pairs: &[u32]) -> Result<(), Refusal>
    requires input_value { malformed input.now ≡ false }
    requires values_value { values.now ≡ values_of input.now }
    requires pairs_value { pairs.now ≡ take 50 (pair_numbers input.now) }
    ensures { outcome_of result ≡ judged (asked_refusals place input.now) tt }
{
    let head = batch_input::read_header(input);
    let frames = batch_input::pair_count(input);
    let room = Room {
        bits: frames * batch_refusals::message_bits(head.code),
        counts: frames,
        rounds: frames,
        firsts: frames,
        work: WORK,
    };
    batch_refusals::batch_fault(head.code, head.rule, values.len(), pairs, room)?;
    if place as usize >= frames {
        return Err(Refusal::NoSuchPlace);
    }
    Ok(())
}

// The line of the frame that a pair names: so many pairs name frames within the values.
fn explain(place: u16, input: &[u8], values: &[f32], pairs: &[u32], out: &mut [u8]) -> usize
    requires in_bounds { (12 ≤ length input.now) × (code_of input.now < 4) }
    requires all_within { AllWithin (size_n (code_of input.now)) (length values.now) (pairs_of pairs.now) }
    requires place_in_bounds { place < length (pairs_of pairs.now) }
    requires in_bounds_2 { 256 ≤ length out.old }
    ensures written { Written out.old 0
        (let b = batch (code_of input.now) (rule_of input.now) (limit_of input.now) (scale_of input.now)
        values.now (pairs_of pairs.now) (lent [] [] [] [] []) in frame_line b (frame_at b place))
        out.new result }
    ensures upper_bound { result ≤ 256 }
{
    let head = batch_input::read_header(input);
    let code = Code::of_number(head.code);
    let j = place as usize;
    let from = pairs[j * 2] as usize;
    let n = code.n();
    let to = from + n;
    let mut word = word_room();
    let mut work = [0.0f32; WORK];
    let found = reason::find_reason(
        code,
        head.rule,
        head.scale,
        head.limit,
        &values[from..to],
        &mut word[..n],
        &mut work,
    );
    reason_text::reason_line(out, code, found, &word[..n])
}

// The line for a batch that is not malformed, its values and pairs read.
fn why_frame(place: u16, input: &[u8], values: &[f32], pairs: &[u32], out: &mut [u8]) -> usize
    requires input_value { malformed input.now ≡ false }
    requires values_value { values.now ≡ values_of input.now }
    requires pairs_value { pairs.now ≡ take 50 (pair_numbers input.now) }
    requires in_bounds { 256 ≤ length out.old }
    ensures written { Written out.old 0 (asked_line place input.now) out.new result }
    ensures upper_bound { result ≤ 256 }
{
    if let Err(r) = input_fault(place, input, values, pairs) {
        return text::refusal_line(out, 0, u16::from(r));
    }
    explain(place, input, values, pairs, out)
}

// The line for a batch that is not malformed.
fn why_input(place: u16, input: &[u8], out: &mut [u8]) -> usize
    requires input_value { malformed input.now ≡ false }
    requires in_bounds { 256 ≤ length out.old }
    ensures written { Written out.old 0 (asked_line place input.now) out.new result }
    ensures upper_bound { result ≤ 256 }
{
    let mut pairs = batch_input::pairs_room();
    let words = batch_input::read_pairs(input, &mut pairs);
    let mut values = batch_input::values_room();
    let n = batch_input::read_values(input, &mut values);
    why_frame(place, input, &values[..n], &pairs[..words], out)
}

// Why the frame at a place of a batch is open: the line at the front of the buffer; the answer is its length.
pub fn why(input: &[u8], out: &mut [u8]) -> usize
    requires { 256 ≤ length out.old }
    ensures written { Written out.old 0 (why_of input.now) out.new result }
    ensures upper_bound { result ≤ 256 }
{
    if input.len() < 2 {
        return text::refusal_line(out, 0, 13);
    }
    if batch_input::is_malformed(&input[2..]) {
        return text::refusal_line(out, 0, 13);
    }
    let place = batch_input::u16_at(input, 0);
    why_input(place, &input[2..], out)
}
