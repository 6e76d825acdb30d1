#![tactic(auto)]
// Levels of live lines, compared in place: each line as often in one as in the other.
mod counts;
mod levels;
mod orders;

pub use levels::same_levels;
