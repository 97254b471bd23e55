// The method of choosing (document 01, "Choosing"), as definitions and laws over any matrix of coefficients, any number
// of rows, any scan order and any relation of needed pairs: specs/Method.antt and proofs/. The crate chooser has its
// code.

#![tactic(auto)]
