// No code: the worked cases stand in specs/, their proof in proofs/.
#![tactic(auto)]
