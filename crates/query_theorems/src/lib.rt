// The theorems about what queries answer. This crate has no code: specs/Queries.antt has the terms, and proofs/Theorems.antt the theorems;
// proofs/Samples.antt and proofs/WorkedRefusals.antt compute what the definitions give.

#![tactic(auto)]
