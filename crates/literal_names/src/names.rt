// Names of literals. The colon of one may stand elsewhere in the other: `a:b` of type `c` and `a` of type `b:c` have one name.
ghost use Rattle.std.specs.Prelude.{◌≡◌, ◌+◌, ◌<◌, length};
ghost use Rattle.basics.specs.Text.{same};
ghost use Rattle.book.specs.Book.{names, types, terms, size, field, name_text, user_types};
ghost use Rattle.book.specs.Laid.{Reads};
ghost use Rattle.book.specs.Decode.{type_of, literal_of};
ghost use Rattle.book_test.specs.Promise.{Promise, GoodLiteral};
ghost use Rattle.solver_expr.specs.SolverExpr.{type_to_string};
ghost use Rattle.solver_expr.specs.Lowering.{literal_name};
ghost use Rattle.literal_names.specs.Names.{barred, Seeks};

use super::Sought;
use basics::same;
use book::format::*;
use book::{SType, field, name};
use records::named;

const COLON: u8 = b':';

// Letters of `bool` and of `int`.
const BOOL_LENGTH: usize = 4;

const INT_LENGTH: usize = 3;

// Two names of one length are the same between their bars, where the first one's colon stands in the other's s.
fn same_split(s: &[u8], typ: &[u8], s2: &[u8], typ2: &[u8]) -> bool
    requires { (length s.now < length s2.now) × (length s.now + length typ.now ≡ length s2.now + length typ2.now) }
    ensures { result ≡ same (barred s.now typ.now) (barred s2.now typ2.now) }
{
    let left = s.len();
    let between = s2.len() - left - 1;
    if s2[left] != COLON {
        return false;
    }
    if typ[between] != COLON {
        return false;
    }
    if !same(s, &s2[..left]) {
        return false;
    }
    if !same(&typ[..between], &s2[left + 1..]) {
        return false;
    }
    same(&typ[between + 1..], typ2)
}

// Two names are the same between their bars, wherever the first colon is.
fn same_pair(s: &[u8], typ: &[u8], s2: &[u8], typ2: &[u8]) -> bool
    ensures { result ≡ same (barred s.now typ.now) (barred s2.now typ2.now) }
{
    if s.len() + typ.len() != s2.len() + typ2.len() {
        return false;
    }
    if s.len() < s2.len() {
        return same_split(s, typ, s2, typ2);
    }
    if s2.len() < s.len() {
        return same_split(s2, typ2, s, typ);
    }
    if !same(s, s2) {
        return false;
    }
    same(typ, typ2)
}

// The text of type typ.
pub fn type_text(book: &[u8], typ: usize) -> &[u8]
    requires { Promise book.now × (typ < user_types + size book.now types) }
    ensures { result.now ≡ type_to_string (type_of book.now typ) }
{
    match SType::from(typ) {
        SType::Bool => b"bool",
        SType::Int => b"int",
        SType::User(k) => named(book, TYPES, k, TYPE_NAME),
    }
}

// The literal that term k is has this name.
fn has_name(book: &[u8], k: usize, s: &[u8], typ: &[u8]) -> bool
    requires { Promise book.now × (k < size book.now terms) × GoodLiteral book.now k }
    ensures { result ≡ same (barred s.now typ.now) (literal_name (literal_of book.now k)) }
{
    let other = named(book, TERMS, k, LITERAL_NAME);
    let other_type = type_text(book, field(book, TERMS, k, LITERAL_TYPE));
    same_pair(s, typ, other, other_type)
}

// The text s, which is name n's, is name m's too. Names that stand at one place are the same without a look at their letters.
fn same_name(book: &[u8], n: usize, s: &[u8], m: usize) -> bool
    requires { Promise book.now × (n < size book.now names) × (m < size book.now names) × (s.now ≡ name_text book.now n) }
    ensures { result ≡ same s.now (name_text book.now m) }
{
    if field(book, NAMES, m, NAME_LENGTH) != s.len() {
        return false;
    }
    if field(book, NAMES, m, NAME_START) == field(book, NAMES, n, NAME_START) {
        return true;
    }
    same(s, name(book, m))
}

// Letters of a type's text.
fn type_length(book: &[u8], typ: usize) -> usize
    requires { Promise book.now × (typ < user_types + size book.now types) }
    ensures { Reads (length (type_to_string (type_of book.now typ))) result }
{
    match SType::from(typ) {
        SType::Bool => BOOL_LENGTH,
        SType::Int => INT_LENGTH,
        SType::User(k) => field(book, NAMES, field(book, TYPES, k, TYPE_NAME), NAME_LENGTH),
    }
}

// Letters of the name of the literal that term k is, without bars and colon.
fn name_length(book: &[u8], k: usize) -> usize
    requires { Promise book.now × (k < size book.now terms) × GoodLiteral book.now k }
    ensures { result ≡ length (name_text book.now (field book.now terms k 1)) + length (type_to_string (type_of book.now (field book.now terms k 2))) }
{
    let s = field(
        book,
        NAMES,
        field(book, TERMS, k, LITERAL_NAME),
        NAME_LENGTH,
    );
    s + type_length(book, field(book, TERMS, k, LITERAL_TYPE))
}

// As has_name, where the numbers are known and those of the types differ: lengths first, then s if both colons stand at one place.
fn has_name_of_other_type(book: &[u8], k: usize, sought: Sought, s: &[u8], typ: &[u8]) -> bool
    requires { Promise book.now × (k < size book.now terms) × GoodLiteral book.now k × Seeks book.now sought s.now typ.now }
    ensures { result ≡ same (barred s.now typ.now) (literal_name (literal_of book.now k)) }
{
    if s.len() + typ.len() != name_length(book, k) {
        return false;
    }
    let n = field(book, TERMS, k, LITERAL_NAME);
    if field(book, NAMES, n, NAME_LENGTH) != s.len() {
        return has_name(book, k, s, typ);
    }
    if !same_name(book, sought.name, s, n) {
        return false;
    }
    has_name(book, k, s, typ)
}

// As has_name, where the numbers are known. If the types have one number, only s is compared.
pub fn agrees(book: &[u8], k: usize, sought: Sought, s: &[u8], typ: &[u8]) -> bool
    requires { Promise book.now × (k < size book.now terms) × GoodLiteral book.now k × Seeks book.now sought s.now typ.now }
    ensures { result ≡ same (barred s.now typ.now) (literal_name (literal_of book.now k)) }
{
    if field(book, TERMS, k, LITERAL_TYPE) == sought.typ {
        return same_name(book, sought.name, s, field(book, TERMS, k, LITERAL_NAME));
    }
    has_name_of_other_type(book, k, sought, s, typ)
}
