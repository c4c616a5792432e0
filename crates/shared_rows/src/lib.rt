// The index of shared rows and the cycles of length four that it gives, for any check list: definitions and laws, and no code.
#![tactic(auto)]
