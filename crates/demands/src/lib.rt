// That the sweep meets the demands, for proofs alone: this crate has no code.
#![tactic(auto)]
