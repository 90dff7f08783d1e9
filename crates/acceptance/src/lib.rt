// Which modules are accepted. This crate has no code: specs/Rules.antt has the rules of a module over bytes, specs/Faults.antt and
// specs/Places.antt say what is wrong at the place of a refusal, and proofs/Theorems.antt has the theorems about the check.

#![tactic(auto)]
