// Answers that tell more than a number: one signed number of C, and the rest through the references lent for it.
#![tactic(auto)]

ghost use Rattle.std.specs.Prelude.{◌≡◌, ◌<◌};
ghost use Rattle.refusal.specs.Answers.{outcome_of};
ghost use Rattle.tanner.specs.Found.{counting_of};
ghost use Rattle.decoders.specs.Calls.{decoding_of};
ghost use Rattle.cycles.specs.Calls.{Report, listed_of};
ghost use Rattle.coded.specs.Coded.{lent, told_in};
ghost use Rattle.coded_parts.specs.Parts.{Counts, Decodes, kind_of, part_of, computed_of, Explains, Lists};

use cycles::Listed;
use first_reason::Reason;
use refusal::Refusal;
use rounds::Decoded;
use tanner::Counted;

// A count; its first check is written.
pub fn counting_code(answer: Result<Counted, Refusal>, first: &mut u16) -> i32
    ensures { Counts (counting_of answer) result (lent first.old first.new) }
{
    match answer {
        Ok(counted) => {
            let check = counted.first;
            *first = check_places::place_of(check);
            coded::value_code(counted.count)
        }
        Err(r) => coded::refusal_code(r),
    }
}

// A decode's count; its rounds run and its first check are written.
pub fn decoding_code(answer: Result<Decoded, Refusal>, rounds: &mut u16, first: &mut u16) -> i32
    ensures { Decodes (decoding_of answer) result (lent rounds.old rounds.new)
        (lent first.old first.new) }
{
    match answer {
        Ok(told) => {
            let check = told.first;
            *rounds = told.rounds;
            *first = check_places::place_of(check);
            coded::value_code(told.count)
        }
        Err(r) => coded::refusal_code(r),
    }
}

// A reason's number: 0 for none, since the frame is clean, 1 for a NaN, 2 for a check, 3 for the checksum.
fn kind_of(reason: Reason) -> u16
    ensures { result ≡ kind_of reason }
{
    match reason {
        Reason::Nan(_) => 1,
        Reason::Check(_) => 2,
        Reason::Checksum {
            carried: _,
            computed: _,
        } => 3,
        Reason::Clean => 0,
    }
}

// The NaN's position, the check's number or the carried checksum; 0 where there is none.
fn part_of(reason: Reason) -> u16
    ensures { result ≡ part_of reason }
{
    match reason {
        Reason::Nan(p) => p,
        Reason::Check(c) => c,
        Reason::Checksum {
            carried,
            computed: _,
        } => carried,
        Reason::Clean => 0,
    }
}

// The computed checksum; 0 where there is none.
fn computed_of(reason: Reason) -> u16
    ensures { result ≡ computed_of reason }
{
    match reason {
        Reason::Nan(_) => 0,
        Reason::Check(_) => 0,
        Reason::Checksum {
            carried: _,
            computed,
        } => computed,
        Reason::Clean => 0,
    }
}

// A reason's number; its part and the computed checksum are written.
pub fn reason_code(answer: Result<Reason, Refusal>, part: &mut u16, computed: &mut u16) -> i32
    ensures { Explains (outcome_of answer) result (lent part.old part.new)
        (lent computed.old computed.new) }
{
    match answer {
        Ok(why) => {
            *part = part_of(why);
            *computed = computed_of(why);
            coded::value_code(kind_of(why))
        }
        Err(r) => coded::refusal_code(r),
    }
}

// How many cycles, which fits; the relaxed picks are written.
pub fn listed_code(answer: Result<Listed, Refusal>, relaxed: &mut u16) -> i32
    requires { told_in (λ (r : Report). r.cycles) (listed_of answer) 0 < 2147483648 }
    ensures { Lists (listed_of answer) result (lent relaxed.old relaxed.new) }
{
    match answer {
        Ok(listed) => {
            *relaxed = listed.relaxed;
            listed.cycles as i32
        }
        Err(r) => coded::refusal_code(r),
    }
}
