// Whether a decoded frame is clean.
#![tactic(auto)]

ghost use Rattle.std.specs.Prelude.{◌≡◌, true, ◌++◌, ◌+◌, ◌*◌, ◌%◌, ◌≤◌, ◌<◌, length, get_or, replicate};
ghost use Rattle.std.specs.Int.Bits.{bit_xor};
ghost use Rattle.bits.specs.Bits.{number};
ghost use Rattle.checksum.specs.Register.{turn};
ghost use Rattle.checksum.specs.Qex.{qex};
ghost use Rattle.tanner.specs.Checks.{low_bits};
ghost use Rattle.clean.specs.Clean.{any_nan, payload_checksum, carried_checksum, checksum_right, frame_clean};

// The checksum that a block's bits carry, and the one computed of its payload.
#[derive(Clone, Copy, Debug, PartialEq, Eq)]
pub struct Checksums {
    pub carried: u16,
    pub computed: u16,
}

// Whether one of the values is a NaN.
fn any_nan(values: &[f32]) -> bool
    ensures { result ≡ any_nan values.now }
{
    values.iter().any(|v| v.is_nan())
}

// The checksum after one more bit.
fn turn_bit(r: u16, b: u16) -> u16
    requires r_bound { r < 16384 }
    requires b_bound { b < 2 }
    ensures { result ≡ turn (bit_xor r (b * 8192)) % 16384 }
{
    checksum::step(r ^ (b * 8192)) % 16384
}

// The low bit of byte i, or 0 past the last.
fn bit_at(bytes: &[u8], i: usize) -> u16
    ensures { (result ≡ get_or (low_bits bytes.now) i 0) × (result < 2) }
{
    bytes.get(i).map_or(0, |byte| (byte % 2) as u16)
}

// The checksum of the bytes' low bits with five zeros after them.
fn checksum_of(bytes: &[u8]) -> u16
    requires { length bytes.now ≤ 77 }
    ensures { result ≡ qex (low_bits bytes.now ++ replicate 5 0) }
{
    let n = bytes.len() + 5;
    let mut r: u16 = 0;
    for i in 0..n {
        r = turn_bit(r, bit_at(bytes, i));
    }
    r
}

// The number that the bytes' low bits write, of which there are at most 14.
fn number_of(bytes: &[u8]) -> u16
    requires { length bytes.now ≤ 14 }
    ensures { result ≡ number (low_bits bytes.now) }
{
    let mut n: u16 = 0;
    for &byte in bytes {
        n = n * 2 + (byte % 2) as u16;
    }
    n
}

// Both checksums of the 91 bits.
pub fn both_checksums(bits: &[u8]) -> Checksums
    requires { length bits.now ≡ 91 }
    ensures { (result.carried ≡ carried_checksum bits.now) × (result.computed ≡ payload_checksum bits.now) }
{
    let computed = checksum_of(&bits[..77]);
    let carried = number_of(&bits[77..91]);
    Checksums { carried, computed }
}

// Whether the 91 bits carry their own checksum.
fn checksum_right(bits: &[u8]) -> bool
    requires { length bits.now ≡ 91 }
    ensures { result ≡ checksum_right bits.now }
{
    let both = both_checksums(bits);
    both.computed == both.carried
}

// Whether a frame of that code with these values is clean: what it decoded to has that count and these bits.
pub fn is_clean(code: u32, values: &[f32], count: u16, bits: &[u8]) -> bool
    requires { code ≡ 3 → length bits.now ≡ 91 }
    ensures { result ≡ frame_clean code values.now count bits.now }
{
    let open = count != 0;
    if open {
        return false;
    }
    if any_nan(values) {
        return false;
    }
    if code == 3 {
        return checksum_right(bits);
    }
    true
}
