// ToSExpr of types and terms.
ghost use Rattle.std.specs.Prelude.{◌≡◌, ◌+◌, ◌*◌, ◌^◌};
ghost use Rattle.basics.specs.Text.{ascii, same};
ghost use Rattle.book.specs.Book.{names, terms, field, name_text};
ghost use Rattle.solver_expr.specs.Values.{Ready, ReadyType, ReadyLiteral, IsType, IsLiteral, without_variables, Bare, Lowered};

use super::{SExpr, SName, SRow, Word};
use book::format::*;
use book::{Kind, SType, field};
use records::kind_of;

// The name of the literal that is replaced by a number.
const TAG: &[u8] = b"%tag";

// What the high half of an Integer counts.
const HIGH: usize = 0x1_0000_0000;

pub fn type_to_sexpr(book: &[u8], k: usize) -> SExpr
    requires { ReadyType book.now k }
    ensures { IsType book.now k result }
{
    match SType::from(k) {
        SType::Bool => SExpr::S(SName::Word(Word::Bool)),
        SType::Int => SExpr::S(SName::Word(Word::Int)),
        SType::User(n) => SExpr::S(SName::Symbol(field(book, TYPES, n, TYPE_NAME))),
    }
}

// Whether name n is the text `%tag`.
fn is_tag(book: &[u8], n: usize) -> bool
    requires { Ready book.now names n }
    ensures { result ≡ same (name_text book.now n) (ascii "%tag") }
{
    book::name(book, n) == TAG
}

fn literal(book: &[u8], t: usize) -> SExpr
    requires { ReadyLiteral book.now t }
    ensures { IsLiteral book.now t result }
{
    if is_tag(book, field(book, TERMS, t, LITERAL_NAME)) {
        SExpr::S(SName::Tag)
    } else {
        SExpr::S(SName::Literal(t))
    }
}

// The 64 bits of an Integer.
pub fn integer_bits(book: &[u8], t: usize) -> u64
    requires { Ready book.now terms t }
    ensures { result ≡ field book.now terms t 1 + 2 ^ 32 * field book.now terms t 2 }
{
    let low = field(book, TERMS, t, INTEGER_LOW);
    let high = field(book, TERMS, t, INTEGER_HIGH);
    (low + HIGH * high) as u64
}

fn without_variables(book: &[u8], t: usize) -> bool
    requires { Ready book.now terms t }
    ensures { result ≡ without_variables book.now t }
{
    (field(book, TERMS, t, KIND) == Kind::QuantifierExpr as usize)
        & (field(book, TERMS, t, QUANTIFIER_CONSTANTS_COUNT) == 0)
}

// A quantifier without variables is its body: the first term from t on that is none.
fn bare(book: &[u8], t: usize) -> usize
    requires { Ready book.now terms t }
    ensures { Bare book.now t result }
{
    let mut x = t;
    while without_variables(book, x) {
        x = field(book, TERMS, x, QUANTIFIER_BODY);
    }
    x
}

pub fn to_sexpr(book: &[u8], t: usize) -> SExpr
    requires { Ready book.now terms t }
    ensures { Lowered book.now t result }
{
    let x = bare(book, t);
    match kind_of(book, x) {
        Kind::Boolean => SExpr::boolean(field(book, TERMS, x, BOOLEAN_VALUE) != 0),
        Kind::Integer => SExpr::integer(integer_bits(book, x)),
        Kind::CustomLiteral => literal(book, x),
        Kind::Id => SExpr::id(book, field(book, TERMS, x, ID_CONSTANT)),
        Kind::BuiltIn => {
            let op = SName::Operator(field(book, TERMS, x, OPERATOR));
            SExpr::func_appl(op, x as u32, field(book, TERMS, x, ARGUMENTS_COUNT))
        }
        Kind::Application => {
            let f = field(book, TERMS, x, OPERATOR);
            let op = SName::Symbol(field(book, FUNCTIONS, f, FUNCTION_NAME));
            SExpr::func_appl(op, x as u32, field(book, TERMS, x, ARGUMENTS_COUNT))
        }
        Kind::IfThenElse => SExpr::PP(SRow::Ite(x)),
        Kind::LetExpr => SExpr::PP(SRow::Let(x)),
        Kind::QuantifierExpr => SExpr::PP(SRow::Quantifier(x)),
    }
}
