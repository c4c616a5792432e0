// Decimal numbers of up to 64 bits, written into a lent buffer.
#![tactic(auto)]

ghost use Rattle.std.specs.Prelude.{◌+◌, ◌<◌, ◌≤◌, length};
ghost use Rattle.text.specs.Text.{leading};
ghost use Rattle.text.specs.Written.{Written};
ghost use Rattle.digits.specs.Digits.{digits, numbered};

pub fn put_digits(out: &mut [u8], at: usize, n: u64) -> usize
    requires { at + length (digits n) ≤ length out.old }
    ensures { Written out.old at (digits n) out.new result }
{
    let mut next = at;
    for k in (1..20).rev() {
        next = text::put_leading(out, next, 10u64.pow(k), n);
    }
    let digit = n % 10;
    text::put_byte(out, next, 48 + digit as u8)
}

// A word and a number after it.
pub fn put_number(out: &mut [u8], at: usize, word: &[u8], n: u64) -> usize
    requires { at + length (numbered word.now n) ≤ length out.old }
    ensures { Written out.old at (numbered word.now n) out.new result }
{
    let a = text::put_text(out, at, word);
    put_digits(out, a, n)
}
