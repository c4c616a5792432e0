// Both engines of min-sum, carried to whole decodes, batches and listings: definitions and theorems, and no code.
#![tactic(auto)]
