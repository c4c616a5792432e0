// Whether the frames of a batch are clean, of what its call wrote.
#![tactic(auto)]

ghost use Rattle.std.specs.Prelude.{◌≡◌, ◌*◌, ◌<◌, ◌≤◌, length};
ghost use Rattle.batch.specs.Codes.{size_n, size_k};
ghost use Rattle.batch.specs.Pairs.{pairs_of, frames_of, AllWithin};
ghost use Rattle.clean.specs.Clean.{frame_clean};
ghost use Rattle.refusal.specs.Outcome.{judged};
ghost use Rattle.refusal.specs.Answers.{outcome_of};
ghost use Rattle.clean_frames.specs.CleanFrames.{clean_of};
ghost use Rattle.clean_frames.specs.Calls.{frame_refusals};

use refusal::Refusal;

// Whether the frame that pair j names is clean, with its count and its bits among those of all frames.
pub fn clean_at(
    code: u32,
    values: &[f32],
    pairs: &[u32],
    j: usize,
    counts: &[u16],
    bits: &[u8],
) -> bool
    requires all_within { AllWithin (size_n code) (length values.now) (pairs_of pairs.now) }
    requires pairs_len_bound { length (pairs_of pairs.now) ≤ 24 }
    requires counts_len { (length counts.now ≡ length (pairs_of pairs.now)) × (length bits.now ≡ length (pairs_of pairs.now) * size_k code) }
    requires j_in_bounds { j < length (pairs_of pairs.now) }
    ensures { result ≡ clean_of code (frames_of values.now (pairs_of pairs.now)) counts.now bits.now j }
{
    let from = pairs[j * 2] as usize;
    let to = from + batch_refusals::frame_values(code);
    let k = batch_refusals::message_bits(code);
    let at = j * k;
    let end = at + k;
    clean::is_clean(code, &values[from..to], counts[j], &bits[at..end])
}

// Whether one frame of the code is clean, with the count and the bits that a decode of its values gave.
pub fn frame_clean(code: u32, values: &[f32], count: u16, bits: &[u8]) -> Result<bool, Refusal>
    ensures { outcome_of result
        ≡ judged (frame_refusals code values.now bits.now) (frame_clean code values.now count bits.now) }
{
    if code > 3 {
        return Err(Refusal::UnknownCode);
    }
    if values.len() != batch_refusals::frame_values(code) {
        return Err(Refusal::InputLength);
    }
    if bits.len() != batch_refusals::message_bits(code) {
        return Err(Refusal::InputLength);
    }
    Ok(clean::is_clean(code, values, count, bits))
}
