// The theorems about comparing two modules: proofs/Theorems.antt. This crate has no code.

#![tactic(auto)]
