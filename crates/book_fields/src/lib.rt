#![tactic(auto)]
// Refusal 4, for every section but terms: each record's test. The loops over the sections are in book_records.
ghost use Rattle.std.specs.Prelude.{◌≡◌, ◌+◌, ◌<◌, ◌≤◌, ltb};
ghost use Rattle.basics.specs.Lists.{all_below};
ghost use Rattle.book.specs.Book.{letters, names, types, constants, functions, axioms, patterns, contexts, lists, size, field};
ghost use Rattle.book.specs.Laid.{section_at, Laid, AllLaid, Holds};
ghost use Rattle.book_fields.specs.Fields.{type_limit, entry_below, is_range, letter_in_range, name_in_range, type_in_range, constant_in_range, function_in_range, axiom_in_range, pattern_in_range, context_in_range};

use book::format::*;
use book::{SType, count, field, letter};

// The letters of names.
const LOWEST: u8 = 0x20;

const HIGHEST: u8 = 0x7E;

// Whether a type number is Bool, Int or one of the book's user types.
pub fn is_type(book: &[u8], t: usize) -> bool
    requires { Laid book.now types }
    ensures { result ≡ ltb t (type_limit book.now) }
{
    match SType::from(t) {
        SType::Bool => true,
        SType::Int => true,
        SType::User(k) => k < count(book, TYPES),
    }
}

fn entry_below(book: &[u8], limit: usize, start: usize, j: usize) -> bool
    requires { Laid book.now lists × (start + j < size book.now lists) }
    ensures { result ≡ entry_below book.now limit start j }
{
    field(book, LISTS, start + j, LISTED) < limit
}

fn entries_below(book: &[u8], limit: usize, start: usize, n: usize) -> bool
    requires { Laid book.now lists × (start + n ≤ size book.now lists) }
    ensures { result ≡ all_below n (entry_below book.now limit start) }
{
    (0..n).all(|j| entry_below(book, limit, start, j))
}

// Whether the range in fields i and i + 1 of record k ends within lists and each entry that it reaches is below the limit.
pub fn is_range(book: &[u8], section: usize, k: usize, i: usize, limit: usize) -> bool
    requires { Laid book.now lists × (section < 10) × Holds book.now (section_at section) k (i + 1) }
    ensures { result ≡ is_range book.now limit (field book.now (section_at section) k i) (field book.now (section_at section) k (i + 1)) }
{
    let start = field(book, section, k, i);
    let n = field(book, section, k, i + 1);
    if start + n <= count(book, LISTS) {
        entries_below(book, limit, start, n)
    } else {
        false
    }
}

pub fn letter_in_range(book: &[u8], i: usize) -> bool
    requires { Laid book.now letters × (i < size book.now letters) }
    ensures { result ≡ letter_in_range book.now i }
{
    let x = letter(book, i);
    (LOWEST <= x) & (x <= HIGHEST)
}

pub fn name_in_range(book: &[u8], i: usize) -> bool
    requires { AllLaid book.now × (i < size book.now names) }
    ensures { result ≡ name_in_range book.now i }
{
    field(book, NAMES, i, NAME_START) + field(book, NAMES, i, NAME_LENGTH) <= count(book, LETTERS)
}

pub fn type_in_range(book: &[u8], i: usize) -> bool
    requires { AllLaid book.now × (i < size book.now types) }
    ensures { result ≡ type_in_range book.now i }
{
    field(book, TYPES, i, TYPE_NAME) < count(book, NAMES)
}

pub fn constant_in_range(book: &[u8], i: usize) -> bool
    requires { AllLaid book.now × (i < size book.now constants) }
    ensures { result ≡ constant_in_range book.now i }
{
    (field(book, CONSTANTS, i, CONSTANT_NAME) < count(book, NAMES))
        & is_type(book, field(book, CONSTANTS, i, CONSTANT_TYPE))
}

pub fn function_in_range(book: &[u8], i: usize) -> bool
    requires { AllLaid book.now × (i < size book.now functions) }
    ensures { result ≡ function_in_range book.now i }
{
    let types = USER_TYPES + count(book, TYPES);
    (field(book, FUNCTIONS, i, FUNCTION_NAME) < count(book, NAMES))
        & is_type(book, field(book, FUNCTIONS, i, FUNCTION_TYPE))
        & is_range(book, FUNCTIONS, i, FUNCTION_INPUTS, types)
        & is_range(
            book,
            FUNCTIONS,
            i,
            FUNCTION_EXPLAINED_BY,
            count(book, AXIOMS),
        )
}

pub fn axiom_in_range(book: &[u8], i: usize) -> bool
    requires { AllLaid book.now × (i < size book.now axioms) }
    ensures { result ≡ axiom_in_range book.now i }
{
    let term = field(book, AXIOMS, i, AXIOM_TERM);
    ((term == NO_TERM) | (term < count(book, TERMS)))
        & is_range(book, AXIOMS, i, AXIOM_EXPLAINS, count(book, FUNCTIONS))
}

pub fn pattern_in_range(book: &[u8], i: usize) -> bool
    requires { AllLaid book.now × (i < size book.now patterns) }
    ensures { result ≡ pattern_in_range book.now i }
{
    is_range(book, PATTERNS, i, PATTERN_TERMS, count(book, TERMS))
}

pub fn context_in_range(book: &[u8], i: usize) -> bool
    requires { AllLaid book.now × (i < size book.now contexts) }
    ensures { result ≡ context_in_range book.now i }
{
    (field(book, CONTEXTS, i, CONTEXT_PARENT) <= i)
        & (field(book, CONTEXTS, i, CONTEXT_TERM) < count(book, TERMS))
        & (field(book, CONTEXTS, i, CONTEXT_TRACE) <= count(book, NAMES))
}
