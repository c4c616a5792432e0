// The calls of the FT8 checksum (CRC-14): taken of bits, appended to a payload, and read back from a block.
#![tactic(auto)]

ghost use Rattle.std.specs.Prelude.{◌≡◌, ◌++◌, ◌^◌, ◌≤◌, ◌<◌, length, take, drop};
ghost use Rattle.refusal.specs.Outcome.{judged, kept};
ghost use Rattle.refusal.specs.Answers.{outcome_of};
ghost use Rattle.checksum.specs.Register.{crc14};
ghost use Rattle.crc.specs.Block.{block, carried};
ghost use Rattle.crc.specs.Bytes.{laid, stored};
ghost use Rattle.crc.specs.Calls.{crc14_refusals, add_refusals, extract_refusals};

use refusal::Refusal;

pub fn ft8_crc14(message: &[u8], num_bits: usize) -> Result<u16, Refusal>
    ensures { outcome_of result ≡ judged (crc14_refusals message.now num_bits) (crc14 message.now num_bits) }
{
    if message.len() < bits::bytes_for(num_bits) {
        return Err(Refusal::InputLength);
    }
    Ok(checksum::checksum_of(message, num_bits))
}

// The first n bytes of src, in dst.
fn copy_front(src: &[u8], dst: &mut [u8], n: usize)
    requires { (n ≤ length src.now) × (n ≤ length dst.old) }
    ensures { dst.new ≡ take n src.now ++ drop n dst.old }
{
    dst[..n].copy_from_slice(&src[..n]);
}

// The block with its payload and, where the checksum goes, zeros.
fn lay_payload(payload: &[u8], a91: &mut [u8])
    requires { (length payload.now ≡ 10) × (length a91.old ≡ 12) }
    ensures { a91.new ≡ laid payload.now }
{
    copy_front(payload, a91, 9);
    a91[9] = payload[9] & 0xF8;
    a91[10] = 0;
    a91[11] = 0;
}

// The checksum at bits 77 to 90 of a block that has zeros there.
fn store_checksum(a91: &mut [u8], checksum: u16)
    requires { (length a91.old ≡ 12) × (checksum < 2 ^ 14) }
    ensures { a91.new ≡ stored a91.old checksum }
{
    a91[9] |= (checksum >> 11) as u8;
    a91[10] = ((checksum >> 3) % 256) as u8;
    a91[11] = ((checksum << 5) % 256) as u8;
}

pub fn ft8_add_crc(payload: &[u8], a91: &mut [u8]) -> Result<(), Refusal>
    ensures result_value { outcome_of result ≡ judged (add_refusals payload.now a91.old) tt }
    ensures a91_after { a91.new ≡ kept (add_refusals payload.now a91.old) a91.old (block payload.now) }
{
    if payload.len() != 10 {
        return Err(Refusal::InputLength);
    }
    if a91.len() != 12 {
        return Err(Refusal::OutputLength);
    }
    lay_payload(payload, a91);
    let checksum = checksum::checksum_of(a91, 82);
    store_checksum(a91, checksum);
    Ok(())
}

pub fn ft8_extract_crc(a91: &[u8]) -> Result<u16, Refusal>
    ensures { outcome_of result ≡ judged (extract_refusals a91.now) (carried a91.now) }
{
    if a91.len() != 12 {
        return Err(Refusal::InputLength);
    }
    let top = (a91[9] & 0x07) as u16;
    let middle = a91[10] as u16;
    let low = (a91[11] >> 5) as u16;
    Ok((top << 11) | (middle << 3) | low)
}
