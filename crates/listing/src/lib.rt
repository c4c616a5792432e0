// The listing of a batch: the program's input read, and what is printed for it written into a lent buffer.
#![tactic(auto)]

ghost use Rattle.std.specs.Prelude.{◌≡◌, [], false, ◌*◌, ◌≤◌, length, take};
ghost use Rattle.text.specs.Written.{Written};
ghost use Rattle.batch.specs.Codes.{size_n, size_k};
ghost use Rattle.batch.specs.Pairs.{pairs_of, AllWithin};
ghost use Rattle.batch.specs.Calls.{lent, batch};
ghost use Rattle.batch_input.specs.Input.{code_of, rule_of, limit_of, scale_of, pair_count, pair_numbers, values_of, malformed};
ghost use Rattle.listing.specs.Listing.{frames_text, listing_of};

// The head line and the frames' lines of a batch that was accepted: so many pairs name frames within the values.
fn write_frames(
    input: &[u8],
    values: &[f32],
    pairs: &[u32],
    bits: &[u8],
    counts: &[u16],
    rounds: &[u16],
    firsts: &[u16],
    out: &mut [u8],
) -> usize
    requires in_bounds { (12 ≤ length input.now) × (pair_count input.now ≡ length (pairs_of pairs.now)) }
    requires all_within { AllWithin (size_n (code_of input.now)) (length values.now) (pairs_of pairs.now) }
    requires pairs_len_bound { length (pairs_of pairs.now) ≤ 24 }
    requires counts_len { (length counts.now ≡ length (pairs_of pairs.now)) × (length bits.now ≡ length (pairs_of pairs.now) * size_k (code_of input.now)) }
    requires rounds_len { (length rounds.now ≡ length (pairs_of pairs.now)) × (length firsts.now ≡ length (pairs_of pairs.now)) }
    requires in_bounds_2 { 4096 ≤ length out.old }
    ensures { Written out.old 0
        (frames_text
        (batch (code_of input.now) (rule_of input.now) (limit_of input.now) (scale_of input.now)
        values.now (pairs_of pairs.now) (lent [] [] [] [] []))
        (lent bits.now counts.now rounds.now firsts.now []))
        out.new result }
{
    let code = input[0];
    let rule = input[1] as u16;
    let limit = batch_input::u16_at(input, 2);
    let frames = batch_input::u16_at(input, 8);
    let at = one_line::head_line(out, 0, code as u16, rule, limit, frames);
    lines::frame_lines(
        out,
        at,
        code as u32,
        values,
        pairs,
        bits,
        counts,
        rounds,
        firsts,
    )
}

// The listing of an input that is not malformed, its values and pairs read.
fn list_frames(input: &[u8], values: &[f32], pairs: &[u32], out: &mut [u8]) -> usize
    requires input_value { malformed input.now ≡ false }
    requires values_value { values.now ≡ values_of input.now }
    requires pairs_value { pairs.now ≡ take 50 (pair_numbers input.now) }
    requires in_bounds { 4096 ≤ length out.old }
    ensures written { Written out.old 0 (listing_of input.now) out.new result }
    ensures upper_bound { result ≤ 4096 }
{
    let mut bits = decoded_input::bits_room();
    let mut counts = decoded_input::numbers_room();
    let mut rounds = decoded_input::numbers_room();
    let mut firsts = decoded_input::numbers_room();
    match decoded_input::decode_fronts(
        input,
        values,
        pairs,
        &mut bits,
        &mut counts,
        &mut rounds,
        &mut firsts,
    ) {
        Err(r) => text::refusal_line(out, 0, u16::from(r)),
        Ok(decoded) => write_frames(
            input,
            values,
            pairs,
            &bits[..decoded.bits],
            &counts[..decoded.frames],
            &rounds[..decoded.frames],
            &firsts[..decoded.frames],
            out,
        ),
    }
}

// The listing of an input that is not malformed.
fn list_input(input: &[u8], out: &mut [u8]) -> usize
    requires input_value { malformed input.now ≡ false }
    requires in_bounds { 4096 ≤ length out.old }
    ensures written { Written out.old 0 (listing_of input.now) out.new result }
    ensures upper_bound { result ≤ 4096 }
{
    let mut pairs = batch_input::pairs_room();
    let words = batch_input::read_pairs(input, &mut pairs);
    let mut values = batch_input::values_room();
    let n = batch_input::read_values(input, &mut values);
    list_frames(input, &values[..n], &pairs[..words], out)
}

// The listing of an input, at the front of the buffer; the answer is its length.
pub fn list(input: &[u8], out: &mut [u8]) -> usize
    requires { 4096 ≤ length out.old }
    ensures written { Written out.old 0 (listing_of input.now) out.new result }
    ensures upper_bound { result ≤ 4096 }
{
    if batch_input::is_malformed(input) {
        return text::refusal_line(out, 0, 13);
    }
    list_input(input, out)
}
