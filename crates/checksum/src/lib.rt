// The FT8 checksum (CRC-14) of the first bits of a message, in a register that is turned once for each bit.
#![tactic(auto)]

ghost use Rattle.std.specs.Prelude.{◌≡◌, ◌*◌, ◌/◌, ◌^◌, ◌≤◌, length};
ghost use Rattle.bits.specs.Bits.{bytes_for};
ghost use Rattle.checksum.specs.Register.{turn, register, crc14};
ghost use Rattle.checksum.specs.Upper.{upper, turn_up, turns_up, taken_in};

const POLY: u16 = 0x2757;

const TOP_PLACE: u32 = 13;

// One turn of the register: the polynomial is multiplied by the top bit, 0 or 1, and no test is made of it.
pub fn step(r: u16) -> u16
    ensures { result ≡ turn r }
{
    let top = (r >> TOP_PLACE) % 2;
    (r << 1) ^ (top * POLY)
}

// ---- the register in the upper 14 bits of a u32, whose top bit is then the word's: a turn is shift, product and XOR

const POLY_UP: u32 = 0x9D5C_0000;

// One turn.
fn step_up(r: u32) -> u32
    ensures { result ≡ turn_up r }
{
    let top = r >> 31;
    (r << 1) ^ (top * POLY_UP)
}

// The polynomial one place up, what passes bit 31 being dropped, with the polynomial XORed in: what the top bit leaves after two turns.
const POLY_TWICE: u32 = 0xA7E4_0000;

// Two turns at once: what is XORed in goes by the two top bits.
fn step_two(r: u32) -> u32
    ensures { result ≡ turn_up (turn_up r) }
{
    let top = r >> 31;
    let next = (r >> 30) % 2;
    ((r << 2) ^ (top * POLY_TWICE)) ^ (next * POLY_UP)
}

// A whole byte taken in.
fn take_in(r: u32, byte: u8) -> u32
    ensures { result ≡ taken_in r byte }
{
    r ^ ((byte as u32) << 24)
}

// The turns of a byte's eight bits.
fn turn_byte(r: u32) -> u32
    ensures { result ≡ turns_up 8 r }
{
    step_two(step_two(step_two(step_two(r))))
}

// The register after n bytes.
fn whole_bytes(message: &[u8], n: usize) -> u32
    requires { n ≤ length message.now }
    ensures { result ≡ upper (register message.now (8 * n)) }
{
    let mut r: u32 = 0;
    for &byte in &message[..n] {
        r = turn_byte(take_in(r, byte));
    }
    r
}

// The register after the first n bits of one more byte.
fn last_bits(byte: u8, n: usize, r: u32) -> u32
    ensures { result ≡ turns_up n (taken_in r byte) }
{
    let mut q = take_in(r, byte);
    for _ in 0..n {
        q = step_up(q);
    }
    q
}

// The register's 14 bits.
fn lowered(r: u32) -> u16
    ensures { result ≡ r / 2 ^ 18 }
{
    (r >> 18) as u16
}

// The checksum of the first num_bits bits.
pub fn checksum_of(message: &[u8], num_bits: usize) -> u16
    requires { bytes_for num_bits ≤ length message.now }
    ensures { result ≡ crc14 message.now num_bits }
{
    let n = num_bits / 8;
    let rest = num_bits % 8;
    let r = whole_bytes(message, n);
    if rest == 0 {
        return lowered(r);
    }
    let byte = message[n];
    lowered(last_bits(byte, rest, r))
}
