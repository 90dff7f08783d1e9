// The theorems about repacking a module: proofs/Theorems.antt. This crate has no code.

#![tactic(auto)]
