#![tactic(auto)]
// SolverExpr.dfy: ToString in both layouts. A writer gets the free part of the buffer, and answers the length of its text.
mod layout;
mod text;

pub use layout::SExprPrintConfig;
pub use text::to_string;
