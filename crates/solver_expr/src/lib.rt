#![tactic(auto)]
// SolverExpr.dfy and the first part of RSolver.dfy: S-expressions over the book, and the lowering of terms. Nothing is written here.
ghost use Rattle.std.specs.Prelude.{◌≡◌};
ghost use Rattle.basics.specs.Basics.{int64};
ghost use Rattle.book.specs.Book.{constants};
ghost use Rattle.solver_expr.specs.Values.{Ready, word_text, IsBoolean, IsInteger, IsId, IsAppl, IsNegation};

use basics::SIGN;
use book::field;
use book::format::{CONSTANT_NAME, CONSTANTS};

mod lowering;
mod measured;

pub use lowering::{integer_bits, to_sexpr, type_to_sexpr};
pub use measured::fitted;

// The words of lowered terms, and Equals and And, which the Dafny names beside them.
#[derive(Clone, Copy)]
pub enum Word {
    False,
    True,
    Equals,
    Not,
    And,
    Minus,
    Ite,
    Let,
    Forall,
    Exists,
    Bang,
    Pattern,
    Bool,
    Int,
}

impl Word {
    // What is printed.
    #[tactic(auto, unfolding(crate::specs::Values::word_text))]
    pub fn text(self) -> &'static [u8]
        ensures { result.now ≡ word_text self }
    {
        match self {
            Word::False => b"false",
            Word::True => b"true",
            Word::Equals => b"=",
            Word::Not => b"not",
            Word::And => b"and",
            Word::Minus => b"-",
            Word::Ite => b"ite",
            Word::Let => b"let",
            Word::Forall => b"forall",
            Word::Exists => b"exists",
            Word::Bang => b"!",
            Word::Pattern => b":pattern",
            Word::Bool => b"Bool",
            Word::Int => b"Int",
        }
    }
}

// The string of S(string): a word, the name of a built-in operator or of a type, constant or function, a number that is not negative, a literal's term, or the number of %tag.
#[derive(Clone, Copy)]
pub enum SName {
    Word(Word),
    Operator(usize),
    Symbol(usize),
    Numeral(u64),
    Literal(usize),
    Tag,
}

// The seq of PP(seq), by the record that it is made of: a term, or for BoundVar a constant, for Terms a pattern, for Types a function. Minus has the magnitude of a negative number. Appl has the name of its head beside the term, and the term as u32 before it, so that a row takes three words: the printer holds two rows in each of its calls.
#[derive(Clone, Copy)]
pub enum SRow {
    Negation(usize),
    Minus(u64),
    Appl(u32, SName),
    Ite(usize),
    Let(usize),
    Bindings(usize),
    Binding(usize),
    Quantifier(usize),
    BoundVars(usize),
    BoundVar(usize),
    Annotated(usize),
    Terms(usize),
    Types(usize),
}

// pun: solver expression. There is no heap: a value says which S-expression over the book is meant.
#[derive(Clone, Copy)]
pub enum SExpr {
    S(SName),
    PP(SRow),
}

impl SExpr {
    pub fn boolean(b: bool) -> SExpr
        ensures { IsBoolean b result }
    {
        SExpr::S(SName::Word(if b { Word::True } else { Word::False }))
    }

    // Integer(x), x the number that 64 bits are as two's complement. A negative one is not negated, since the least can't be.
    pub fn integer(bits: u64) -> SExpr
        ensures { IsInteger (int64 bits) result }
    {
        if bits < SIGN {
            SExpr::S(SName::Numeral(bits))
        } else {
            SExpr::PP(SRow::Minus(bits.wrapping_neg()))
        }
    }

    // Id(x)
    pub fn id(book: &[u8], v: usize) -> SExpr
        requires { Ready book.now constants v }
        ensures { IsId book.now v result }
    {
        SExpr::S(SName::Symbol(field(book, CONSTANTS, v, CONSTANT_NAME)))
    }

    // FuncAppl(op, args), args the `count` arguments of term t
    pub fn func_appl(op: SName, t: u32, count: usize) -> SExpr
        ensures { IsAppl op t count result }
    {
        if count == 0 {
            SExpr::S(op)
        } else {
            SExpr::PP(SRow::Appl(t, op))
        }
    }

    // Negation(e), e the S-expression of term t
    pub fn negation(t: usize) -> SExpr
        ensures { IsNegation t result }
    {
        SExpr::PP(SRow::Negation(t))
    }
}
