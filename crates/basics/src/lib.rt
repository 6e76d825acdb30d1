#![tactic(auto)]
// Basics.dfy: text that is written into a buffer, and decimal numbers; and texts that are compared.
mod bit;
mod decimal;
mod letters;
mod place;
mod word;
mod write;

pub use bit::{BITS, has_bit, with_bit};
pub use decimal::{SIGN, put_i64, put_int, put_u64};
pub use letters::same;
pub use place::put_at;
pub use word::put_word;
pub use write::{clip, put, put_all, repeat, spaces, sum};

// The least scratch that a call takes.
pub const SCRATCH_LEAST: usize = 128;
