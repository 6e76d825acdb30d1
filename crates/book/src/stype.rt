// SType by its number: Bool, Int, and the book's user types behind them.
ghost use Rattle.book.specs.Kinds.{HasNumber};

use super::format::{BOOL, INT, USER_TYPES};

#[derive(Clone, Copy, PartialEq, Eq)]
pub enum SType {
    Bool,
    Int,
    // The user type of this record.
    User(usize),
}

impl From<usize> for SType {
    ghost from_gives = { HasNumber };

    fn from(number: usize) -> Self {
        match number {
            BOOL => SType::Bool,
            INT => SType::Int,
            _ => SType::User(number - USER_TYPES),
        }
    }
}
