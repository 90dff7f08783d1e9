// Definitions that several crates share, and the laws about them. There is no code here: specs/Lists.antt has joined lists and properties
// of every element of a list, specs/Letters.antt the identifiers of the covered chunks.

#![tactic(auto)]
