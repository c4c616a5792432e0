// Document 01's cases marked (P): a table of what the definitions give, the theorem that they give it, and no code.
#![tactic(auto)]
