#![tactic(auto)]
// What program script prints, call by call. The definition of the whole output is in specs/Script.antt.
mod answers;
mod lines;
mod opening;
mod reading;
mod turns;

pub use answers::Turn;
pub use lines::STOPPED;
pub use opening::{INPUT_MOST, NUMBER, calls_start, is_cut};
pub use reading::CALL;
pub use turns::call_turn;
