// The sign of a check's answer: definitions and theorems, and no code.
#![tactic(auto)]
