// The customer's three demands as theorems about the operations. This crate has statements and proofs, and no code.
#![tactic(auto)]
