#![tactic(auto)]
// Proofs only: what an audit says of our own writer's scripts, and what its verdict means.
