// The lines of a batch's frames, written into a lent buffer one after another.
#![tactic(auto)]

ghost use Rattle.std.specs.Prelude.{◌≡◌, [], ◌+◌, ◌*◌, ◌≤◌, length};
ghost use Rattle.text.specs.Written.{Written};
ghost use Rattle.batch.specs.Codes.{size_n, size_k};
ghost use Rattle.batch.specs.Pairs.{pairs_of, frames_of, AllWithin};
ghost use Rattle.batch.specs.Calls.{lent};
ghost use Rattle.lines.specs.Lines.{line_at, lines_from};

// The lines of the frames that the pairs name.
pub fn frame_lines(
    out: &mut [u8],
    at: usize,
    code: u32,
    values: &[f32],
    pairs: &[u32],
    bits: &[u8],
    counts: &[u16],
    rounds: &[u16],
    firsts: &[u16],
) -> usize
    requires all_within { AllWithin (size_n code) (length values.now) (pairs_of pairs.now) }
    requires pairs_len_bound { length (pairs_of pairs.now) ≤ 24 }
    requires counts_len { (length counts.now ≡ length (pairs_of pairs.now)) × (length bits.now ≡ length (pairs_of pairs.now) * size_k code) }
    requires rounds_len { (length rounds.now ≡ length (pairs_of pairs.now)) × (length firsts.now ≡ length (pairs_of pairs.now)) }
    requires pairs_in_bounds { at + 127 * length (pairs_of pairs.now) ≤ length out.old }
    ensures { Written out.old at
        (lines_from (line_at code (frames_of values.now (pairs_of pairs.now))
        (lent bits.now counts.now rounds.now firsts.now []))
        0 (length (pairs_of pairs.now)))
        out.new result }
{
    let k = batch_refusals::message_bits(code);
    let mut next = at;
    let mut from = 0;
    for (j, &count) in counts.iter().enumerate() {
        let to = from + k;
        let clean = clean_frames::clean_at(code, values, pairs, j, counts, bits);
        next = one_line::frame_line(
            out,
            next,
            j as u16,
            count,
            rounds[j],
            clean,
            &bits[from..to],
            firsts[j],
        );
        from = to;
    }
    next
}
