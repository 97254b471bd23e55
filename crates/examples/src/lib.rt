// The worked examples of document 01, P1 to P10, as one fact about the definitions: specs/Examples.antt has the list, and
// proofs/Examples.antt the fact. There is no code here.

#![tactic(auto)]
