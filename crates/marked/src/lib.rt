// Theorems only: document 01's twelve marked examples and its tape, as one table.
#![tactic(auto)]
