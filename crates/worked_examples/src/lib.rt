#![tactic(auto)]
// Worked examples of the definitions: see proofs/.
