// Laws of f32 for the float placement: the definitions stand in specs/, the laws in proofs/. There is nothing to call.
#![tactic(auto)]
