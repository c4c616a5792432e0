// The first unsatisfied check of a word as one number, as a batch and the C interface hand it out.
#![tactic(auto)]

ghost use Rattle.std.specs.Prelude.{◌≡◌};
ghost use Rattle.tanner.specs.Found.{first_of};
ghost use Rattle.check_places.specs.Places.{place_of};

// What stands in the place of a first unsatisfied check where every check is satisfied.
pub const NO_CHECK: u16 = 65535;

// A first unsatisfied check as one number.
pub fn place_of(first: Option<u16>) -> u16
    ensures { result ≡ place_of (first_of first) }
{
    first.unwrap_or(NO_CHECK)
}
