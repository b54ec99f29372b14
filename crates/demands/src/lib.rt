// Theorems only: the marked examples, and the promises over any sequence of calls.
#![tactic(auto)]
