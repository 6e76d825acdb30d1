#![tactic(auto)]
// The calls move and ask, on a session behind a reference and by value.
mod asking;
mod moving;

pub use asking::{ask, ask_mut};
pub use moving::{move_mut, move_to};
