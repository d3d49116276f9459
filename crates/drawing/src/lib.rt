// Specs only: what the members of the drawing promise, and the laws that their proofs cite.
#![tactic(auto)]
