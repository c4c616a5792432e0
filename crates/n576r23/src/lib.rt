// The tables of N576R23, code 1, proved to be what the construction gives. The constants are `staircase`'s.
#![tactic(auto)]

ghost use Rattle.std.specs.Prelude.{◌≡◌};
ghost use Rattle.construction.specs.Codes.{n576r23, message_rows};

use staircase::tables::N576R23_ROWS;

// The rows of its message columns, three a column.
// Stays beside those of the other two codes: one constant and its computed proof, and no code that the three could share.
pub fn message_rows() -> [u16; 1152]
    ensures { result ≡ message_rows n576r23 }
{
    N576R23_ROWS
}
