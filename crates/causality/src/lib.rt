// The trace theorem of document 01 for any working. No code: the claims are in specs/, their proofs in proofs/.
#![tactic(auto)]
