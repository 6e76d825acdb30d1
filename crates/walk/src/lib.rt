#![tactic(auto)]
// RSolver.dfy: DeclareNewSymbols. The term walk, the axiom walk and the list walks call each other.
mod cycle;
mod leaves;

pub use cycle::declare_new_symbols;
