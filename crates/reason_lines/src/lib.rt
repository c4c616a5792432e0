// The line of each reason, written into a lent buffer; the line of a check over any checks that lie flat.
#![tactic(auto)]

ghost use Rattle.std.specs.Prelude.{◌+◌, ◌<◌, ◌≤◌, length};
ghost use Rattle.tanner.specs.Flat.{FlatChecks, rows_of};
ghost use Rattle.lists.specs.Below.{Below};
ghost use Rattle.text.specs.Written.{Written};
ghost use Rattle.reason_lines.specs.Lines.{nan_line, pair_text, entries, check_line, checksum_line};

pub fn nan_line(out: &mut [u8], p: u16) -> usize
    requires { length (nan_line p) ≤ length out.old }
    ensures { Written out.old 0 (nan_line p) out.new result }
{
    let at = text::put_field(out, 0, b"nan ", p);
    text::put_byte(out, at, 10)
}

// A position and its bit.
fn put_pair(out: &mut [u8], at: usize, p: u16, bit: u8) -> usize
    requires { at + length (pair_text p bit) ≤ length out.old }
    ensures { Written out.old at (pair_text p bit) out.new result }
{
    let next = text::put_field(out, at, b" ", p);
    text::put_field(out, next, b":", bit as u16)
}

fn put_entries(out: &mut [u8], at: usize, positions: &[u16], word: &[u8]) -> usize
    requires below { Below (length word.now) positions.now }
    requires word_in_bounds { at + length (entries positions.now word.now) ≤ length out.old }
    ensures { Written out.old at (entries positions.now word.now) out.new result }
{
    let mut next = at;
    for &p in positions {
        next = put_pair(out, next, p, word[p as usize]);
    }
    next
}

// Check c of the checks that lie flat.
pub fn check_over(out: &mut [u8], starts: &[u16], flat: &[u16], c: u16, word: &[u8]) -> usize
    requires flat_checks { FlatChecks starts.now flat.now (length word.now) }
    requires c_in_bounds { c + 1 < length starts.now }
    requires c_in_bounds_2 { length (check_line (rows_of starts.now flat.now) word.now c) ≤ length out.old }
    ensures { Written out.old 0
        (check_line (rows_of starts.now flat.now) word.now c) out.new result }
{
    let i = c as usize;
    let a = starts[i] as usize;
    let b = starts[i + 1] as usize;
    let at = text::put_field(out, 0, b"check ", c);
    let next = put_entries(out, at, &flat[a..b], word);
    text::put_byte(out, next, 10)
}

pub fn checksum_line(out: &mut [u8], carried: u16, computed: u16) -> usize
    requires { length (checksum_line carried computed) ≤ length out.old }
    ensures { Written out.old 0 (checksum_line carried computed) out.new result }
{
    let a = text::put_text(out, 0, b"checksum ");
    let b = text::put_hex_word(out, a, carried);
    let c = text::put_byte(out, b, 32);
    let d = text::put_hex_word(out, c, computed);
    text::put_byte(out, d, 10)
}
