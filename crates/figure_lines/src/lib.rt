// The lines of the reception figures, written into a lent buffer: that of a total, and that of a file that is not counted.
#![tactic(auto)]

ghost use Rattle.std.specs.Prelude.{◌+◌, ◌≤◌, length};
ghost use Rattle.text.specs.Written.{Written};
ghost use Rattle.figure_lines.specs.Lines.{sums_text, fraction_text, figures_text, totals_line, file_line};

use figures::{Fraction, Totals};
use refusal::Refusal;

// Why a file is not counted.
#[derive(Clone, Copy, Debug, PartialEq, Eq)]
pub enum Reason {
    Refused(Refusal),
    Unreadable,
}

// ---- a total

// The four sums.
fn put_sums(out: &mut [u8], at: usize, t: Totals) -> usize
    requires { at + 110 ≤ length out.old }
    ensures { Written out.old at (sums_text t) out.new result }
{
    let a = digits::put_number(out, at, b"frames ", t.frames as u64);
    let b = digits::put_number(out, a, b" clean ", t.clean);
    let c = digits::put_number(out, b, b" counts ", t.counts);
    digits::put_number(out, c, b" rounds ", t.rounds)
}

// A word and a fraction after it.
fn put_fraction(out: &mut [u8], at: usize, word: &[u8], over: u64, under: u64) -> usize
    requires { at + (length word.now + 41) ≤ length out.old }
    ensures { Written out.old at (fraction_text word.now (record { over = over; under = under })) out.new result }
{
    let a = digits::put_number(out, at, word, over);
    digits::put_number(out, a, b"/", under)
}

// The sums, the share a/b and the mean d/e.
fn put_figures(out: &mut [u8], at: usize, t: Totals, a: u64, b: u64, d: u64, e: u64) -> usize
    requires { at + 206 ≤ length out.old }
    ensures { Written out.old at (figures_text t (record { over = a; under = b }) (record { over = d; under = e })) out.new result }
{
    let sums = put_sums(out, at, t);
    let share = put_fraction(out, sums, b" share ", a, b);
    let mean = put_fraction(out, share, b" mean ", d, e);
    text::put_byte(out, mean, 10)
}

// The line of a total.
pub fn totals_line(out: &mut [u8], at: usize, t: Totals) -> usize
    requires { at + 206 ≤ length out.old }
    ensures { Written out.old at (totals_line t) out.new result }
{
    let Ok(
        Fraction {
            numerator: a,
            denominator: b,
        },
    ) = figures::clean_share(t)
    else {
        return text::refusal_line(out, at, 15);
    };
    let Ok(
        Fraction {
            numerator: d,
            denominator: e,
        },
    ) = figures::mean_count(t)
    else {
        return text::refusal_line(out, at, 15);
    };
    put_figures(out, at, t, a, b, d, e)
}

// ---- a file that is not counted

// The line of the file at that place among the arguments.
pub fn file_line(out: &mut [u8], at: usize, place: u64, reason: Reason) -> usize
    requires { at + 35 ≤ length out.old }
    ensures { Written out.old at (file_line place reason) out.new result }
{
    let a = digits::put_digits(out, at, place);
    match reason {
        Reason::Refused(r) => {
            let b = text::put_byte(out, a, 32);
            text::refusal_line(out, b, u16::from(r))
        }
        Reason::Unreadable => {
            let b = text::put_text(out, a, b" unreadable");
            text::put_byte(out, b, 10)
        }
    }
}
