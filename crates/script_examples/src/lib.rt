#![tactic(auto)]
// Worked examples of program script: see proofs/.
