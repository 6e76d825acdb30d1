#![tactic(auto)]
// Literals are told apart by their whole names, |s:type|, as texts: whether a term is a literal of a given name.
mod names;

pub use names::{agrees, type_text};

// What is looked for: the numbers of a literal's name and of its type.
#[derive(Clone, Copy)]
pub struct Sought {
    pub name: usize,
    pub typ: usize,
}
