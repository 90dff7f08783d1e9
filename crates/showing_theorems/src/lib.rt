// Modules that show the same. This crate has no code: specs/Showing.antt defines this query by query. By proofs/Theorems.antt two modules
// show the same if they have the same content, wherever it is in each and however the patterns are packed.

#![tactic(auto)]
