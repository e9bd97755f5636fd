// No code: what is claimed of sheets stands in specs/, the proofs in proofs/.
#![tactic(auto)]
