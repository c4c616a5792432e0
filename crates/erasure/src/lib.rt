// Mending: the unknown bits of a recorded word that its code's checks decide, for the four codes by number.
#![tactic(auto)]

ghost use Rattle.std.specs.Prelude.{◌≡◌, length};
ghost use Rattle.refusal.specs.Outcome.{judged, kept};
ghost use Rattle.refusal.specs.Answers.{outcome_of};
ghost use Rattle.filling.specs.Filling.{filled_word, filled_places, listed};
ghost use Rattle.filling.specs.Calls.{FilledAs};
ghost use Rattle.numbered.specs.Codes.{checks_by};
ghost use Rattle.erasure.specs.Calls.{erasure_refusals};

use construction::codes::{N512R12, N512R34, N576R23};
use ldpc::tables::{CHECK_BITS, CHECK_STARTS};
use numbered::Code;
use refusal::Refusal;
use staircase::tables::{
    N512R12_CHECK_BITS, N512R12_CHECK_STARTS, N512R34_CHECK_BITS, N512R34_CHECK_STARTS,
    N576R23_CHECK_BITS, N576R23_CHECK_STARTS,
};

// Fills a word of the code with that number: sets the unknown bits that its checks decide, and lists their positions.
pub fn fill_erasures(code: u32, word: &mut [u8], places: &mut [u16]) -> Result<u16, Refusal>
    ensures result_value { outcome_of result
        ≡ judged (erasure_refusals code word.old places.old) (length (filled_places (checks_by code) word.old)) }
    ensures word_after { word.new
        ≡ kept (erasure_refusals code word.old places.old) word.old (filled_word (checks_by code) word.old) }
    ensures places_after { places.new
        ≡ kept (erasure_refusals code word.old places.old) places.old
        (listed (filled_places (checks_by code) word.old) places.old) }
{
    let known = Code::try_from(code)?;
    match known {
        Code::N512R12 => filling::fill_over(
            &N512R12_CHECK_STARTS,
            &N512R12_CHECK_BITS,
            N512R12::N,
            word,
            places,
        ),
        Code::N576R23 => filling::fill_over(
            &N576R23_CHECK_STARTS,
            &N576R23_CHECK_BITS,
            N576R23::N,
            word,
            places,
        ),
        Code::N512R34 => filling::fill_over(
            &N512R34_CHECK_STARTS,
            &N512R34_CHECK_BITS,
            N512R34::N,
            word,
            places,
        ),
        Code::Ft8 => filling::fill_over(&CHECK_STARTS, &CHECK_BITS, ldpc::N, word, places),
    }
}
