// No code: what is claimed of whole runs stands in specs/, the proofs in proofs/.
#![tactic(auto)]
