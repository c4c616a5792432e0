// Numbers, bytes and the bits that they write: definitions (`specs/Bits.antt`) and laws (`proofs/Digits.antt`, `proofs/Packed.antt`) for the crates above,
// and the number of bytes that bits need.
#![tactic(auto)]

ghost use Rattle.std.specs.Prelude.{◌≡◌};
ghost use Rattle.bits.specs.Bits.{bytes_for};

// How many bytes hold num_bits bits; no sum here passes the largest usize.
pub fn bytes_for(num_bits: usize) -> usize
    ensures { result ≡ bytes_for num_bits }
{
    num_bits.div_ceil(8)
}
