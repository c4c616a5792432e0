// The tables of N512R34, code 2, proved to be what the construction gives. The constants are `staircase`'s.
#![tactic(auto)]

ghost use Rattle.std.specs.Prelude.{◌≡◌};
ghost use Rattle.construction.specs.Codes.{n512r34, message_rows};

use staircase::tables::N512R34_ROWS;

// The rows of its message columns, three a column.
// Stays beside those of the other two codes: one constant and its computed proof, and no code that the three could share.
pub fn message_rows() -> [u16; 1152]
    ensures { result ≡ message_rows n512r34 }
{
    N512R34_ROWS
}
