// Whether a book holds a literal that prints as a number.
ghost use Rattle.std.specs.Prelude.{◌≡◌, not, ◌<◌};
ghost use Rattle.basics.specs.Lists.{all};
ghost use Rattle.book.specs.Book.{terms, size};
ghost use Rattle.book.specs.Decode.{literal_at, program};
ghost use Rattle.book_test.specs.Promise.{Promise};
ghost use Rattle.audit.specs.Audit.{has_no_tag};

use book::format::{KIND, TERMS};
use book::{Kind, count, field};
use literals::is_tag;

// Term t is such a literal. A constant or an operator of that name is none.
fn is_tag_term(book: &[u8], t: usize) -> bool
    requires { Promise book.now × (t < size book.now terms) }
    ensures { result ≡ not (has_no_tag (literal_at book.now t)) }
{
    field(book, TERMS, t, KIND) == Kind::CustomLiteral as usize && is_tag(book, t)
}

// Every term is looked at, used or not.
pub fn has_tag(book: &[u8]) -> bool
    requires { Promise book.now }
    ensures { result ≡ not (all (program book.now).literals has_no_tag) }
{
    (0..count(book, TERMS)).any(|t| is_tag_term(book, t))
}
