// The staircase codes: their check lists and encodings, by definition, with the laws of any of them, and the constants that hold the three codes' tables.
// That a code's constants are what the construction gives is proved in its own crate, `n512r12`, `n576r23` or `n512r34`.
#![tactic(auto)]

pub mod tables;
