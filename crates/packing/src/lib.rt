// Words of bits, one bit a byte, packed eight a byte, most significant first, and taken out again: a (174,91) message has 91 bits and 12 bytes,
// a word 174 and 22.
#![tactic(auto)]

ghost use Rattle.std.specs.Prelude.{◌≡◌, ◌<◌, ◌≤◌, ◌/◌, length, get_or};
ghost use Rattle.refusal.specs.Outcome.{judged, kept};
ghost use Rattle.refusal.specs.Answers.{outcome_of};
ghost use Rattle.bits.specs.Bits.{bits, bytes_for};
ghost use Rattle.packing.specs.Packing.{packed_word, unpacked_word, pack_refusals, unpack_refusals};

use refusal::Refusal;

// ---- packing

fn write_bytes(word: &[u8], bytes: &mut [u8])
    requires { length bytes.old ≡ bytes_for (length word.now) }
    ensures { bytes.new ≡ packed_word word.now }
{
    for (i, byte) in bytes.iter_mut().enumerate() {
        *byte = text::byte_at(word, i * 8);
    }
}

// The low bits of the word's bytes, packed; the last byte is filled with zeros.
pub fn pack_bits(word: &[u8], bytes: &mut [u8]) -> Result<(), Refusal>
    ensures result_value { outcome_of result ≡ judged (pack_refusals word.now bytes.old) tt }
    ensures bytes_after { bytes.new
        ≡ kept (pack_refusals word.now bytes.old) bytes.old (packed_word word.now) }
{
    if bytes.len() != bits::bytes_for(word.len()) {
        return Err(Refusal::OutputLength);
    }
    write_bytes(word, bytes);
    Ok(())
}

// ---- taking out

// Bit i.
fn bit_in(bytes: &[u8], i: usize) -> u8
    requires { i / 8 < length bytes.now }
    ensures { result ≡ get_or (bits bytes.now) i 0 }
{
    let byte = bytes[i / 8];
    (byte >> (7 - i % 8)) % 2
}

fn write_bits(bytes: &[u8], word: &mut [u8])
    requires { bytes_for (length word.old) ≤ length bytes.now }
    ensures { word.new ≡ unpacked_word (length word.old) bytes.now }
{
    for (i, bit) in word.iter_mut().enumerate() {
        *bit = bit_in(bytes, i);
    }
}

// As many bits as the word has places, from the front of the bytes.
pub fn unpack_bits(bytes: &[u8], word: &mut [u8]) -> Result<(), Refusal>
    ensures result_value { outcome_of result ≡ judged (unpack_refusals bytes.now word.old) tt }
    ensures word_after { word.new
        ≡ kept (unpack_refusals bytes.now word.old) word.old
        (unpacked_word (length word.old) bytes.now) }
{
    if bytes.len() < bits::bytes_for(word.len()) {
        return Err(Refusal::InputLength);
    }
    write_bits(bytes, word);
    Ok(())
}
