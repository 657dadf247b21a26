// What follows of the rules, for proofs alone: this crate has no code.
#![tactic(auto)]
