#![tactic(auto)]
// Readers of a book that keeps the book test's promise.
ghost use Rattle.std.specs.Prelude.{◌≡◌, ◌<◌};
ghost use Rattle.book.specs.Book.{terms, size, field, name_text};
ghost use Rattle.book.specs.Kinds.{number_of};
ghost use Rattle.book.specs.Laid.{section_at};
ghost use Rattle.book_test.specs.Promise.{Promise};
ghost use Rattle.records.specs.Named.{Named};

use book::Kind;
use book::format::{KIND, TERMS};

// The kind of a term: the test lets no other number through.
pub fn kind_of(book: &[u8], t: usize) -> Kind
    requires { Promise book.now × (t < size book.now terms) }
    ensures { number_of result ≡ field book.now terms t 0 }
{
    match Kind::try_from(book::field(book, TERMS, t, KIND)) {
        Ok(kind) => kind,
        Err(_) => unreachable!(),
    }
}

// The bytes of the name whose number is field i of record k.
pub fn named(book: &[u8], section: usize, k: usize, i: usize) -> &[u8]
    requires { Named book.now section k i }
    ensures { result.now ≡ name_text book.now (field book.now (section_at section) k i) }
{
    book::name(book, book::field(book, section, k, i))
}
