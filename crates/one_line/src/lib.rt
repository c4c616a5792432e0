// One line of a listing, written into a lent buffer: the head line, or a frame's.
#![tactic(auto)]

ghost use Rattle.std.specs.Prelude.{◌+◌, ◌≤◌, length};
ghost use Rattle.text.specs.Written.{Written};
ghost use Rattle.one_line.specs.Line.{head_line, clean_or_open, first_field, frame_line};

// The head line: the four numbers as given.
pub fn head_line(out: &mut [u8], at: usize, code: u16, rule: u16, limit: u16, frames: u16) -> usize
    requires { at + length (head_line code rule limit frames) ≤ length out.old }
    ensures { Written out.old at (head_line code rule limit frames) out.new result }
{
    let a = text::put_field(out, at, b"code ", code);
    let b = text::put_field(out, a, b" rule ", rule);
    let c = text::put_field(out, b, b" limit ", limit);
    let d = text::put_field(out, c, b" frames ", frames);
    text::put_byte(out, d, 10)
}

// The word of a frame, with the spaces around it.
fn clean_or_open(out: &mut [u8], at: usize, clean: bool) -> usize
    requires { at + length (clean_or_open clean) ≤ length out.old }
    ensures { Written out.old at (clean_or_open clean) out.new result }
{
    if clean {
        return text::put_text(out, at, b" clean ");
    }
    text::put_text(out, at, b" open ")
}

// The first unsatisfied check, where there is one.
fn first_field(out: &mut [u8], at: usize, count: u16, first: u16) -> usize
    requires { at + length (first_field count first) ≤ length out.old }
    ensures { Written out.old at (first_field count first) out.new result }
{
    if count == 0 {
        return at;
    }
    text::put_field(out, at, b" ", first)
}

// The line of one frame.
pub fn frame_line(
    out: &mut [u8],
    at: usize,
    place: u16,
    count: u16,
    rounds: u16,
    clean: bool,
    bits: &[u8],
    first: u16,
) -> usize
    requires { at + length (frame_line place count rounds clean bits.now first) ≤ length out.old }
    ensures { Written out.old at (frame_line place count rounds clean bits.now first) out.new result }
{
    let a = text::put_decimal(out, at, place);
    let b = text::put_field(out, a, b" ", count);
    let c = text::put_field(out, b, b" ", rounds);
    let d = clean_or_open(out, c, clean);
    let e = text::put_hex(out, d, bits);
    let f = first_field(out, e, count, first);
    text::put_byte(out, f, 10)
}
