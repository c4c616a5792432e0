// Steps that walks by hand share: proofs alone, for functions that the borrow checker does not cover.
#![tactic(auto)]
