// The checks of the (174,91) code, from the original's tables: definitions and laws, and no code. That the tables agree is tested and proved here.
#![tactic(auto)]
