#![tactic(auto)]
// A script's lines, in place: where one ends, whether two are the same, and which command of ours one is.
mod kinds;
mod lines;
mod parentheses;

pub use kinds::{CHECK_SAT, LineKind, PUSH, line_kind};
pub use lines::{is_line, line_at, same_line};
