// What the calls answer is what the full list answers: a crate of statements and their proofs.
#![tactic(auto)]
