#![tactic(auto)]
// Refusals 2 and 3: the contents are as laid out, and no count is over its limit.
ghost use Rattle.std.specs.Prelude.{◌≡◌, ◌<◌, ◌≤◌, length};
ghost use Rattle.book.specs.Book.{sections, contents_size};
ghost use Rattle.book.specs.Laid.{section_at};
ghost use Rattle.book_contents.specs.Contents.{laid_from, laid_out, count_fits, counts_fit};

use book::format::*;
use book::{count, offset};

// The largest count of each section.
pub const LIMITS: [usize; SECTIONS] = [
    LETTERS_MOST,
    NAMES_MOST,
    TYPES_MOST,
    CONSTANTS_MOST,
    FUNCTIONS_MOST,
    AXIOMS_MOST,
    PATTERNS_MOST,
    TERMS_MOST,
    CONTEXTS_MOST,
    LISTS_MOST,
];

// Whether each section begins where the one before ends, and the last ends the book.
// Ten sections of 28 bytes times a 32-bit count stay far below 2^64.
fn in_order(book: &[u8]) -> bool
    requires { contents_size ≤ length book.now }
    ensures { result ≡ laid_from book.now contents_size sections }
{
    let mut at = CONTENTS;
    for n in 0..SECTIONS {
        if offset(book, n) != at {
            return false;
        }
        at += SIZES[n] * count(book, n);
    }
    at == book.len()
}

pub fn laid_out(book: &[u8]) -> bool
    ensures { result ≡ laid_out book.now }
{
    CONTENTS <= book.len() && in_order(book)
}

fn count_fits(book: &[u8], n: usize) -> bool
    requires { (contents_size ≤ length book.now) × (n < 10) }
    ensures { result ≡ count_fits book.now (section_at n) }
{
    count(book, n) <= LIMITS[n]
}

pub fn counts_fit(book: &[u8]) -> bool
    requires { contents_size ≤ length book.now }
    ensures { result ≡ counts_fit book.now }
{
    (0..SECTIONS).all(|n| count_fits(book, n))
}
