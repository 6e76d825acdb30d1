#![tactic(auto)]
// Refusal 28: a name that cannot go to a solver.
ghost use Rattle.std.specs.Prelude.{◌≡◌, ◌+◌, ◌<◌};
ghost use Rattle.basics.specs.Lists.{all_below};
ghost use Rattle.book.specs.Book.{types, terms, size, field, user_types};
ghost use Rattle.book.specs.Laid.{section_at, AllLaid};
ghost use Rattle.book.specs.Decode.{type_of, literal_of};
ghost use Rattle.book_names.specs.Names.{plain_type, literal_named, record_named, section_named, term_named, names_good};
ghost use Rattle.book_names.specs.Spelled.{Spelled, NamedFirst};

use basics::same;
use book::format::*;
use book::{Kind, SType, count, field, name};
use symbols::{has_bar, is_name};

// The name of a type, constant or function is its first field.
const FIRST: usize = 0;

fn record_named(book: &[u8], section: usize, k: usize) -> bool
    requires { AllLaid book.now × Spelled book.now × NamedFirst book.now section × (k < size book.now (section_at section)) }
    ensures { result ≡ record_named book.now (section_at section) k }
{
    is_name(name(book, field(book, section, k, FIRST)))
}

fn section_named(book: &[u8], section: usize) -> bool
    requires { AllLaid book.now × Spelled book.now × NamedFirst book.now section }
    ensures { result ≡ section_named book.now (section_at section) }
{
    (0..count(book, section)).all(|k| record_named(book, section, k))
}

// Bool and Int are words.
fn plain_type(book: &[u8], typ: usize) -> bool
    requires { AllLaid book.now × Spelled book.now × (typ < user_types + size book.now types) }
    ensures { result ≡ plain_type (type_of book.now typ) }
{
    match SType::from(typ) {
        SType::Bool => true,
        SType::Int => true,
        SType::User(k) => !has_bar(name(book, field(book, TYPES, k, TYPE_NAME))),
    }
}

fn literal_named(book: &[u8], t: usize) -> bool
    requires { AllLaid book.now × Spelled book.now × (t < size book.now terms) × (field book.now terms t 0 ≡ 2) }
    ensures { result ≡ literal_named (literal_of book.now t) }
{
    let s = name(book, field(book, TERMS, t, LITERAL_NAME));
    if same(s, b"%tag") {
        return true;
    }
    if has_bar(s) {
        return false;
    }
    let typ = field(book, TERMS, t, LITERAL_TYPE);
    plain_type(book, typ)
}

fn term_named(book: &[u8], t: usize) -> bool
    requires { AllLaid book.now × Spelled book.now × (t < size book.now terms) }
    ensures { result ≡ term_named book.now t }
{
    if field(book, TERMS, t, KIND) != Kind::CustomLiteral as usize {
        return true;
    }
    literal_named(book, t)
}

fn terms_named(book: &[u8]) -> bool
    requires { AllLaid book.now × Spelled book.now }
    ensures { result ≡ all_below (size book.now terms) (term_named book.now) }
{
    (0..count(book, TERMS)).all(|t| term_named(book, t))
}

// Used or not, every type, constant, function and literal is looked at.
pub fn names_good(book: &[u8]) -> bool
    requires { AllLaid book.now × Spelled book.now }
    ensures { result ≡ names_good book.now }
{
    section_named(book, TYPES)
        & section_named(book, CONSTANTS)
        & section_named(book, FUNCTIONS)
        & terms_named(book)
}
