// Laws of lists and of tests, for proofs alone: this crate has no code.
#![tactic(auto)]
