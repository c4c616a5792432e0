// The line that explains a frame of any of the four codes: which reason it is, and what it names, written into a lent buffer.
#![tactic(auto)]

ghost use Rattle.std.specs.Prelude.{◌≡◌, ◌<◌, ◌≤◌, length};
ghost use Rattle.text.specs.Written.{Written};
ghost use Rattle.numbered.specs.Codes.{size_n, checks_by};
ghost use Rattle.numbered.specs.Numbers.{code_number};
ghost use Rattle.reason_lines.specs.Lines.{check_line, reason_line, Named};

use first_reason::Reason;
use ldpc::tables::{CHECK_BITS, CHECK_STARTS};
use numbered::Code;
use reason_lines::check_over;
use staircase::tables::{
    N512R12_CHECK_BITS, N512R12_CHECK_STARTS, N512R34_CHECK_BITS, N512R34_CHECK_STARTS,
    N576R23_CHECK_BITS, N576R23_CHECK_STARTS,
};

// Check c of the code, over its tables.
fn check_line(out: &mut [u8], code: Code, c: u16, word: &[u8]) -> usize
    requires word_len { length word.now ≡ size_n (code_number code) }
    requires c_in_bounds { c < length (checks_by (code_number code)) }
    requires in_bounds { 256 ≤ length out.old }
    ensures { Written out.old 0 (check_line (checks_by (code_number code)) word.now c) out.new result }
{
    match code {
        Code::N512R12 => check_over(out, &N512R12_CHECK_STARTS, &N512R12_CHECK_BITS, c, word),
        Code::N576R23 => check_over(out, &N576R23_CHECK_STARTS, &N576R23_CHECK_BITS, c, word),
        Code::N512R34 => check_over(out, &N512R34_CHECK_STARTS, &N512R34_CHECK_BITS, c, word),
        Code::Ft8 => check_over(out, &CHECK_STARTS, &CHECK_BITS, c, word),
    }
}

// The line of a reason, of the code and a word.
pub fn reason_line(out: &mut [u8], code: Code, reason: Reason, word: &[u8]) -> usize
    requires word_len { length word.now ≡ size_n (code_number code) }
    requires named { Named (checks_by (code_number code)) reason }
    requires in_bounds { 256 ≤ length out.old }
    ensures written { Written out.old 0 (reason_line (checks_by (code_number code)) word.now reason) out.new result }
    ensures upper_bound { result ≤ 256 }
{
    match reason {
        Reason::Nan(p) => reason_lines::nan_line(out, p),
        Reason::Check(c) => check_line(out, code, c, word),
        Reason::Checksum { carried, computed } => reason_lines::checksum_line(
            out, carried, computed,
        ),
        Reason::Clean => text::put_text(out, 0, b"clean\n"),
    }
}
