//! Hash maps seen as finite maps: what a hash map's entries find is what the finite map of the same
//! entries finds, for keys whose order agrees with their equality. `specs/Pairs` has pairs of numbers
//! as keys; `proofs/` has the lemmas, by which the crates above show that a hashed index is the map
//! that their contracts speak of.
#![tactic(auto)]
