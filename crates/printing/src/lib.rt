#![tactic(auto)]
// The calls print and operator.
mod operators;
mod terms;

pub use operators::operator;
pub use terms::print;
