#![tactic(auto)]
// The stack rule: what is live in the solver after any list of calls, and of growths of the book between them. See specs/ and proofs/.
