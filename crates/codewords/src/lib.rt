// Which words satisfy every check of the (174,91) code: definitions and theorems, and no code.
#![tactic(auto)]
