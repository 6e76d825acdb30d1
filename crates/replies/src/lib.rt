#![tactic(auto)]
// The calls reply and model, on a session behind a reference and by value: Solvers.dfy's Prove behind the check.
mod closing;
mod model;
mod reply;

pub use model::{give_model, model_mut};
pub use reply::{give_reply, reply_mut};
