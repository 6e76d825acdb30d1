#![tactic(auto)]
// Names as symbols of SMT-LIB 2.6: simple, or between bars.
mod letters;
mod names;
mod words;
mod writing;

pub use letters::has_bar;
pub use names::{is_name, is_quoted, is_simple};
pub use writing::put_symbol;
