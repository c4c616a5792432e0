// Reception figures as numbers of C: 0 or minus a refusal's number, and the figures through the references lent for them.
#![tactic(auto)]

ghost use Rattle.figures.specs.Totals.{summed_of, figure_of};
ghost use Rattle.coded_figures.specs.Figures.{totals, fraction, Writes};

use figures::{Fraction, Totals};
use refusal::Refusal;

// 0, with the new total written, or minus a refusal's number.
pub fn summed_code(
    answer: Result<Totals, Refusal>,
    frames: &mut u32,
    clean: &mut u64,
    counts: &mut u64,
    rounds: &mut u64,
) -> i32
    ensures { Writes (summed_of answer) result
        (totals frames.old clean.old counts.old rounds.old)
        (totals frames.new clean.new counts.new rounds.new) }
{
    match answer {
        Ok(total) => {
            *frames = total.frames;
            *clean = total.clean;
            *counts = total.counts;
            *rounds = total.rounds;
            0
        }
        Err(r) => coded::refusal_code(r),
    }
}

// 0, with the fraction written, or minus a refusal's number.
pub fn figure_code(answer: Result<Fraction, Refusal>, over: &mut u64, under: &mut u64) -> i32
    ensures { Writes (figure_of answer) result
        (fraction over.old under.old) (fraction over.new under.new) }
{
    match answer {
        Ok(f) => {
            *over = f.numerator;
            *under = f.denominator;
            0
        }
        Err(refusal) => coded::refusal_code(refusal),
    }
}
