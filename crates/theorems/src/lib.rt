// Statements are in specs/, their proofs in proofs/.
#![tactic(auto)]
