#![tactic(auto)]
// SmtEngines.dfy: the commands, each written as a line.
mod assumptions;
mod lines;
mod parts;

pub use assumptions::{assume, assume_not};
pub use lines::{
    check_sat, declare_constant, declare_function, declare_literal, declare_sort, get_model, pop,
    push,
};
