#![tactic(auto)]
// RSolver.dfy: DeclareNewSymbols and PrintTrace. The definitions are in specs/; the code comes with printing and the session.
