// The input of a program that reads a batch: little-endian numbers, the header, the pairs and the values.
#![tactic(auto)]

ghost use Rattle.std.specs.Prelude.{◌≡◌, false, ◌+◌, ◌*◌, ◌<◌, ◌≤◌, min, length, take};
ghost use Rattle.batch_input.specs.Input.{u16_at, u32_at, u32s_from, float_of, pair_count, values_start, pair_numbers, values_of, malformed};
ghost use Rattle.batch_input.specs.Read.{Read, HeaderOf};

// The numbers that a frame is decoded by.
#[derive(Clone, Copy)]
pub struct Header {
    pub code: u32,
    pub rule: u32,
    pub limit: u16,
    pub scale: f32,
}

pub fn u16_at(s: &[u8], i: usize) -> u16
    requires { i + 2 ≤ length s.now }
    ensures { result ≡ u16_at s.now i }
{
    s[i] as u16 + 256 * (s[i + 1] as u16)
}

pub fn u32_at(s: &[u8], i: usize) -> u32
    requires { i + 4 ≤ length s.now }
    ensures { result ≡ u32_at s.now i }
{
    let low = u16_at(s, i);
    let high = u16_at(s, i + 2);
    low as u32 + 65536 * (high as u32)
}

// The float of the bits; a NaN's bits give a NaN that an operation makes.
pub fn float_of(bits: u32) -> f32
    ensures { result ≡ float_of bits }
{
    if bits % 2147483648 > 2139095040 {
        0.0 / 0.0
    } else {
        f32::from_bits(bits)
    }
}

// The numbers from `at` on, as many as the slice has places.
pub fn load_words(input: &[u8], at: usize, words: &mut [u32])
    requires { at + 4 * length words.old ≤ length input.now }
    ensures { words.new ≡ u32s_from (λ w. w) input.now at (length words.old) }
{
    for (i, word) in words.iter_mut().enumerate() {
        *word = u32_at(input, at + 4 * i);
    }
}

// The floats from `at` on, as many as the slice has places.
pub fn load_values(input: &[u8], at: usize, values: &mut [f32])
    requires { at + 4 * length values.old ≤ length input.now }
    ensures { values.new ≡ u32s_from float_of input.now at (length values.old) }
{
    for (i, value) in values.iter_mut().enumerate() {
        *value = float_of(u32_at(input, at + 4 * i));
    }
}

pub fn read_header(input: &[u8]) -> Header
    requires { 12 ≤ length input.now }
    ensures { HeaderOf input.now result }
{
    let code = input[0] as u32;
    let rule = input[1] as u32;
    let limit = u16_at(input, 2);
    let scale = float_of(u32_at(input, 4));
    Header {
        code,
        rule,
        limit,
        scale,
    }
}

pub fn pair_count(input: &[u8]) -> usize
    requires { 12 ≤ length input.now }
    ensures value { result ≡ pair_count input.now }
    ensures upper_bound { result < 65536 }
{
    u16_at(input, 8) as usize
}

pub fn values_start(input: &[u8]) -> usize
    requires { 12 ≤ length input.now }
    ensures { result ≡ values_start input.now }
{
    12 + 8 * pair_count(input)
}

pub fn is_malformed(input: &[u8]) -> bool
    ensures { result ≡ malformed input.now }
{
    if input.len() > 65536 {
        return true;
    }
    if input.len() < 12 {
        return true;
    }
    if input[10] != 0 {
        return true;
    }
    if input[11] != 0 {
        return true;
    }
    let start = values_start(input);
    if input.len() < start {
        return true;
    }
    (input.len() - start) % 4 != 0
}

// ---- the pairs and the values, read into lent arrays

// Room for 25 pairs, and for the values of the longest input: each ensures its length alone.

pub fn pairs_room() -> [u32; 50]
    ensures { 50 ≡ length result }
{
    [0; 50]
}

pub fn values_room() -> [f32; 16384]
    ensures { 16384 ≡ length result }
{
    [0.0; 16384]
}

// How many numbers of the pairs are read: 25 pairs are enough, since a batch of more is refused as one of 25 is.
fn words_passed(frames: usize) -> usize
    requires { frames < 65536 }
    ensures { result ≡ min 50 (2 * frames) }
{
    if frames < 25 { 2 * frames } else { 50 }
}

pub fn read_pairs(input: &[u8], pairs: &mut [u32]) -> usize
    requires input_value { malformed input.now ≡ false }
    requires in_bounds { 50 ≤ length pairs.old }
    ensures { Read (take 50 (pair_numbers input.now)) pairs.new result }
{
    let words = words_passed(pair_count(input));
    load_words(input, 12, &mut pairs[..words]);
    words
}

pub fn read_values(input: &[u8], values: &mut [f32]) -> usize
    requires input_value { malformed input.now ≡ false }
    requires in_bounds { 16384 ≤ length values.old }
    ensures { Read (values_of input.now) values.new result }
{
    let start = values_start(input);
    let n = (input.len() - start) / 4;
    load_values(input, start, &mut values[..n]);
    n
}
