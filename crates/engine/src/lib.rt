#![tactic(auto)]
// RSolver.dfy: SetContext and AdjustContext, and Prove up to the check, at a node of a tested book; and a node's depth.
mod context;
mod enter;
mod prove;

pub use context::{depth_of, set_context};
pub use prove::question;

// Where a fresh session stands.
pub const ROOT: usize = 0;
