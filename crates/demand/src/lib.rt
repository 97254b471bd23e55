// Demand 3, one statement about choosing and locating together: specs/Demand.antt has it, proofs/Theorem.antt its
// proof. There is no code here: the statement is about the definitions that the promises of the two operations name.

#![tactic(auto)]
