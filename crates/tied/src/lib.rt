// Theorems only: a tape makes the calls that the promises speak of.
#![tactic(auto)]
