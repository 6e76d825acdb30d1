#![tactic(auto)]
// RSolver.dfy: RExpr.ToString of a book's term, at a place of a buffer. Names are raw.
mod cycle;
mod leaves;

pub use cycle::rexpr_to_string;

// A term was written whole, up to a place; or all before its last child, up to a place, and the child and a parenthesis are left.
// An enum and not a place with an Option: the place means another thing in each case.
#[derive(Clone, Copy)]
pub enum Front {
    Whole(usize),
    Before(usize, usize),
}
