// A module as data and as bytes. This crate has no code: specs/Description.antt, specs/Encoding.antt and specs/WellFormed.antt can be read
// as a document of the format. By proofs/Theorems.antt the accepted modules are exactly the encodings of well-formed descriptions.

#![tactic(auto)]
