// The (174,91) LDPC code of FT8: encoding by its generator.
#![tactic(auto)]

ghost use Rattle.std.specs.Prelude.{◌≡◌, ℕ, ◌+◌, ◌≤◌, ◌<◌, length, get_or};
ghost use Rattle.refusal.specs.Outcome.{judged, kept};
ghost use Rattle.refusal.specs.Answers.{outcome_of};
ghost use Rattle.ldpc_encoding.specs.Bytes.{byte_parity, mixed, gathered, code_byte};
ghost use Rattle.ldpc_encoding.specs.Calls.{encode_refusals};
ghost use Rattle.ldpc_encoding.specs.Encoding.{codeword_of};

use ldpc::{K_BYTES, N_BYTES};
use refusal::Refusal;

pub mod tables;

// The parity of a byte's bits.
fn parity8(x: u8) -> u8
    ensures { result ≡ byte_parity x }
{
    let a = x ^ (x >> 4);
    let b = a ^ (a >> 2);
    (b ^ (b >> 1)) % 2
}

// The bytes of a row and of the message, ANDed pair by pair and XORed together.
fn mix(row: &[u8], message: &[u8]) -> u8
    requires { length row.now ≡ length message.now }
    ensures { result ≡ mixed 0 row.now message.now }
{
    let mut x = 0;
    for (g, b) in row.iter().zip(message) {
        x ^= *g & *b;
    }
    x
}

// The parity bits from `first` on, `count` of them, in the low bits of a byte.
fn parity_bits(generator: &[u8], message: &[u8], first: usize, count: usize) -> u8
    requires { (first + count ≤ 83) × (length generator.now ≡ 996) × (length message.now ≡ 12) }
    ensures { result ≡ gathered generator.now message.now first count }
{
    let mut byte = 0;
    for i in 0..count {
        let a = 12 * (first + i);
        byte = (byte << 1) | parity8(mix(&generator[a..a + 12], message));
    }
    byte
}

// Byte j of the codeword: the message's, the five first parity bits behind the message's last three, eight more, the last six.
fn code_byte(generator: &[u8], message: &[u8], j: usize) -> u8
    requires { (j < 22) × (length generator.now ≡ 996) × (length message.now ≡ 12) }
    ensures { result ≡ code_byte generator.now message.now j }
{
    if j < 11 {
        return message[j];
    }
    if j == 11 {
        return message[11] | parity_bits(generator, message, 0, 5);
    }
    if j == 21 {
        return parity_bits(generator, message, 77, 6) << 2;
    }
    parity_bits(generator, message, 8 * j - 91, 8)
}

// The codeword, byte after byte.
fn fill(generator: &[u8], message: &[u8], codeword: &mut [u8])
    requires { (length generator.now ≡ 996) × (length message.now ≡ 12) × (length codeword.old ≡ 22) }
    ensures codeword_len { length codeword.new ≡ 22 }
    ensures by_index { (k : ℕ) → k < 22 → get_or codeword.new k 0 ≡ code_byte generator.now message.now k }
{
    for (j, byte) in codeword.iter_mut().enumerate() {
        *byte = code_byte(generator, message, j);
    }
}

pub fn ldpc_encode(message: &[u8], codeword: &mut [u8]) -> Result<(), Refusal>
    ensures result_value { outcome_of result ≡ judged (encode_refusals message.now codeword.old) tt }
    ensures codeword_after { codeword.new
        ≡ kept (encode_refusals message.now codeword.old) codeword.old (codeword_of message.now) }
{
    if message.len() != K_BYTES {
        return Err(Refusal::InputLength);
    }
    if message[11] % 32 != 0 {
        return Err(Refusal::MessageSlack);
    }
    if codeword.len() != N_BYTES {
        return Err(Refusal::OutputLength);
    }
    fill(&tables::GENERATOR, message, codeword);
    Ok(())
}
