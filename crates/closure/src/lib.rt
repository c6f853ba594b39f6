// The computed traces are the relations of document 01. No code: the laws are in proofs/.
#![tactic(auto)]
