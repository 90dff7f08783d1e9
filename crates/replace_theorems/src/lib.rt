// The theorems about replacing a sample of a module: proofs/Theorems.antt. This crate has no code.

#![tactic(auto)]
