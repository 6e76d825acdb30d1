#![tactic(auto)]
// The declaring part of the walk, outside its cycle of calls: what is declared, and at which level.
mod marks;
mod types;

pub use marks::{declared_count, mark};
pub use session_levels::{AXIOM_PLACES, CONSTANT_PLACES, FUNCTION_PLACES, LITERAL_PLACES, Level};
pub use types::{
    declare_constant, declare_constant_types, declare_function, declare_new_types, declare_type_of,
};

// How far a walk has come: the next place in the text, and whether an axiom was looked up that has no term. No Result: a walk goes on
// past such an axiom, so both always say something. It is passed beside `levels` and `out`, since every writer takes a place and a text.
#[derive(Clone, Copy)]
pub struct Progress {
    pub at: usize,
    pub missing: bool,
}
