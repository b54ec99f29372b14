// No function: the paper's table of refusals, and the theorem that each call is refused exactly by it.
#![tactic(auto)]
