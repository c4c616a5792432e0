// Texts written into a lent buffer: bytes, decimal numbers, bits in hexadecimal, and the line of a refusal.
#![tactic(auto)]

ghost use Rattle.std.specs.Prelude.{◌≡◌, [], ◌∷◌, ◌+◌, ◌<◌, ◌≤◌, length};
ghost use Rattle.text.specs.Written.{Written};
ghost use Rattle.text.specs.Text.{leading, decimal, bit_at, byte_at, hex_digit, hex_byte, hex_word, hex, field, refusal_line};

// ---- texts and numbers, each written at a place of the buffer; the answer is the place after it

pub fn put_byte(out: &mut [u8], at: usize, byte: u8) -> usize
    requires { at < length out.old }
    ensures { Written out.old at (byte ∷ []) out.new result }
{
    out[at] = byte;
    at + 1
}

pub fn put_text(out: &mut [u8], at: usize, text: &[u8]) -> usize
    requires { at + length text.now ≤ length out.old }
    ensures { Written out.old at text.now out.new result }
{
    let next = at + text.len();
    out[at..next].copy_from_slice(text);
    next
}

// The digit of weight p, unless the number is below p.
pub fn put_leading(out: &mut [u8], at: usize, p: u64, n: u64) -> usize
    requires p_nonzero { 0 < p }
    requires n_in_bounds { at + length (leading p n) ≤ length out.old }
    ensures { Written out.old at (leading p n) out.new result }
{
    if n < p {
        return at;
    }
    let digit = n / p % 10;
    put_byte(out, at, 48 + digit as u8)
}

pub fn put_decimal(out: &mut [u8], at: usize, n: u16) -> usize
    requires { at + length (decimal n) ≤ length out.old }
    ensures { Written out.old at (decimal n) out.new result }
{
    let n = n as u64;
    let a = put_leading(out, at, 10000, n);
    let b = put_leading(out, a, 1000, n);
    let c = put_leading(out, b, 100, n);
    let d = put_leading(out, c, 10, n);
    let digit = n % 10;
    put_byte(out, d, 48 + digit as u8)
}

// ---- bits

// A bit, or a zero past the last.
pub fn bit_at(bits: &[u8], i: usize) -> u8
    ensures { result ≡ bit_at bits.now i }
{
    bits.get(i).map_or(0, |bit| bit % 2)
}

// Eight bits as a byte.
pub fn byte_at(bits: &[u8], i: usize) -> u8
    requires { i < length bits.now }
    ensures { result ≡ byte_at bits.now i }
{
    128 * bit_at(bits, i)
        + 64 * bit_at(bits, i + 1)
        + 32 * bit_at(bits, i + 2)
        + 16 * bit_at(bits, i + 3)
        + 8 * bit_at(bits, i + 4)
        + 4 * bit_at(bits, i + 5)
        + 2 * bit_at(bits, i + 6)
        + bit_at(bits, i + 7)
}

pub fn hex_digit(d: u8) -> u8
    requires { d < 16 }
    ensures { result ≡ hex_digit d }
{
    if d < 10 { 48 + d } else { 87 + d }
}

pub fn put_hex_byte(out: &mut [u8], at: usize, byte: u8) -> usize
    requires { at + 2 ≤ length out.old }
    ensures { Written out.old at (hex_byte byte) out.new result }
{
    let high = put_byte(out, at, hex_digit(byte / 16));
    put_byte(out, high, hex_digit(byte % 16))
}

// A number of two bytes, four digits.
pub fn put_hex_word(out: &mut [u8], at: usize, n: u16) -> usize
    requires { at + 4 ≤ length out.old }
    ensures { Written out.old at (hex_word n) out.new result }
{
    let [high, low] = n.to_be_bytes();
    let next = put_hex_byte(out, at, high);
    put_hex_byte(out, next, low)
}

// Bits packed into bytes, in hexadecimal.
pub fn put_hex(out: &mut [u8], at: usize, bits: &[u8]) -> usize
    requires { at + length (hex bits.now) ≤ length out.old }
    ensures { Written out.old at (hex bits.now) out.new result }
{
    let mut next = at;
    for eight in bits.chunks(8) {
        next = put_hex_byte(out, next, byte_at(eight, 0));
    }
    next
}

// ---- lines

// A word and a number after it.
pub fn put_field(out: &mut [u8], at: usize, word: &[u8], n: u16) -> usize
    requires { at + length (field word.now n) ≤ length out.old }
    ensures { Written out.old at (field word.now n) out.new result }
{
    let a = put_text(out, at, word);
    put_decimal(out, a, n)
}

pub fn refusal_line(out: &mut [u8], at: usize, number: u16) -> usize
    requires { at + length (refusal_line number) ≤ length out.old }
    ensures { Written out.old at (refusal_line number) out.new result }
{
    let a = put_field(out, at, b"refused ", number);
    put_byte(out, a, 10)
}
