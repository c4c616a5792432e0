// Reception figures: a total is four numbers and a fraction two, each lent by itself.
ghost use Rattle.refusal.specs.Outcome.{judged};
ghost use Rattle.batch.specs.Pairs.{pairs_of};
ghost use Rattle.figures.specs.Fraction.{lowest};
ghost use Rattle.figures.specs.Totals.{join_refusals, sums, fraction_refusals};
ghost use Rattle.batch_figures.specs.Results.{results, added};
ghost use Rattle.coded_figures.specs.Figures.{totals, fraction, Writes};

use figures::Totals;

// The total with the frames of a batch: of its values and pairs, and of what its call left.
#[unsafe(no_mangle)]
pub extern "C" fn desklink_totals_add_unguarded(
    frames: &mut u32,
    clean: &mut u64,
    count_sum: &mut u64,
    round_sum: &mut u64,
    code: u32,
    values: &[f32],
    pairs: &[u32],
    bits: &[u8],
    counts: &[u16],
    rounds: &[u16],
) -> i32
    ensures { Writes
        (added (totals frames.old clean.old count_sum.old round_sum.old)
        (results code values.now (pairs_of pairs.now) bits.now counts.now rounds.now))
        result
        (totals frames.old clean.old count_sum.old round_sum.old)
        (totals frames.new clean.new count_sum.new round_sum.new) }
{
    let total = Totals {
        frames: *frames,
        clean: *clean,
        counts: *count_sum,
        rounds: *round_sum,
    };
    let sum = batch_figures::add_batch(total, code, values, pairs, bits, counts, rounds);
    coded_figures::summed_code(sum, frames, clean, count_sum, round_sum)
}

// The totals of the frames of both.
#[unsafe(no_mangle)]
pub extern "C" fn desklink_totals_join_unguarded(
    frames: &mut u32,
    clean: &mut u64,
    counts: &mut u64,
    rounds: &mut u64,
    more_frames: u32,
    more_clean: u64,
    more_counts: u64,
    more_rounds: u64,
) -> i32
    ensures { let a = totals frames.old clean.old counts.old rounds.old in
        let b = totals more_frames more_clean more_counts more_rounds in
        Writes (judged (join_refusals a b) (sums a b)) result a
        (totals frames.new clean.new counts.new rounds.new) }
{
    let total = Totals {
        frames: *frames,
        clean: *clean,
        counts: *counts,
        rounds: *rounds,
    };
    let more = Totals {
        frames: more_frames,
        clean: more_clean,
        counts: more_counts,
        rounds: more_rounds,
    };
    coded_figures::summed_code(figures::join(total, more), frames, clean, counts, rounds)
}

// The share of clean frames.
#[unsafe(no_mangle)]
pub extern "C" fn desklink_clean_share_unguarded(
    frames: u32,
    clean: u64,
    over: &mut u64,
    under: &mut u64,
) -> i32
    ensures { Writes (judged (fraction_refusals frames) (lowest clean frames)) result
        (fraction over.old under.old) (fraction over.new under.new) }
{
    let total = Totals {
        frames,
        clean,
        counts: 0,
        rounds: 0,
    };
    coded_figures::figure_code(figures::clean_share(total), over, under)
}

// The mean count of a frame.
#[unsafe(no_mangle)]
pub extern "C" fn desklink_mean_count_unguarded(
    frames: u32,
    counts: u64,
    over: &mut u64,
    under: &mut u64,
) -> i32
    ensures { Writes (judged (fraction_refusals frames) (lowest counts frames)) result
        (fraction over.old under.old) (fraction over.new under.new) }
{
    let total = Totals {
        frames,
        clean: 0,
        counts,
        rounds: 0,
    };
    coded_figures::figure_code(figures::mean_count(total), over, under)
}
