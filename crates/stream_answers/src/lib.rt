// That one stream's answer to a base is what the parts take, for proofs alone: this crate has no code.
#![tactic(auto)]
