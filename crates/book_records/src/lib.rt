#![tactic(auto)]
// Refusal 4, for every section but terms: each section's records pass their test.
ghost use Rattle.std.specs.Prelude.{◌≡◌};
ghost use Rattle.book.specs.Laid.{AllLaid};
ghost use Rattle.book_fields.specs.Fields.{fields_in_range};

use book::count;
use book::format::*;
use book_fields::{
    axiom_in_range, constant_in_range, context_in_range, function_in_range, letter_in_range,
    name_in_range, pattern_in_range, type_in_range,
};

pub fn fields_in_range(book: &[u8]) -> bool
    requires { AllLaid book.now }
    ensures { result ≡ fields_in_range book.now }
{
    (0..count(book, LETTERS)).all(|i| letter_in_range(book, i))
        & (0..count(book, NAMES)).all(|i| name_in_range(book, i))
        & (0..count(book, TYPES)).all(|i| type_in_range(book, i))
        & (0..count(book, CONSTANTS)).all(|i| constant_in_range(book, i))
        & (0..count(book, FUNCTIONS)).all(|i| function_in_range(book, i))
        & (0..count(book, AXIOMS)).all(|i| axiom_in_range(book, i))
        & (0..count(book, PATTERNS)).all(|i| pattern_in_range(book, i))
        & (0..count(book, CONTEXTS)).all(|i| context_in_range(book, i))
}
