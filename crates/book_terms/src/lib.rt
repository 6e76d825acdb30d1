#![tactic(auto)]
// Refusal 4, for terms: a known kind, each field that the kind uses in range, the others 0.
ghost use Rattle.std.specs.Prelude.{◌≡◌, ◌+◌, ◌<◌, ◌≤◌};
ghost use Rattle.book.specs.Book.{terms, size};
ghost use Rattle.book.specs.Decode.{boolean, integer, custom_literal, id, built_in, application, if_then_else, let_expr, quantifier_expr};
ghost use Rattle.book.specs.Laid.{Laid, AllLaid};
ghost use Rattle.book_terms.specs.Terms.{is_zero, uses, kind_in_range, term_in_range, terms_in_range};

use book::format::*;
use book::{Kind, count, field};
use book_fields::{is_range, is_type};

// The fields behind a term's kind, and how many of them a kind uses.
const FIELDS: usize = 6;

const BOOLEAN_USES: usize = 1;

const INTEGER_USES: usize = 2;

const LITERAL_USES: usize = 2;

const ID_USES: usize = 1;

const APPLICATION_USES: usize = 3;

const IF_USES: usize = 3;

const LET_USES: usize = 3;

// A Boolean, and whether a quantifier is universal, is a number below this.
const TRUTHS: usize = 2;

fn is_zero(book: &[u8], t: usize, used: usize, j: usize) -> bool
    requires { Laid book.now terms × (t < size book.now terms) × (used + j < 6) }
    ensures { result ≡ is_zero book.now t used j }
{
    field(book, TERMS, t, used + 1 + j) == 0
}

// Whether the term uses its first `used` fields, and the others are 0.
fn uses(book: &[u8], t: usize, used: usize) -> bool
    requires { Laid book.now terms × (t < size book.now terms) × (used ≤ 6) }
    ensures { result ≡ uses book.now t used }
{
    (0..FIELDS - used).all(|j| is_zero(book, t, used, j))
}

fn boolean_in_range(book: &[u8], t: usize) -> bool
    requires { AllLaid book.now × (t < size book.now terms) }
    ensures { result ≡ kind_in_range book.now boolean t }
{
    (field(book, TERMS, t, BOOLEAN_VALUE) < TRUTHS) & uses(book, t, BOOLEAN_USES)
}

fn literal_in_range(book: &[u8], t: usize) -> bool
    requires { AllLaid book.now × (t < size book.now terms) }
    ensures { result ≡ kind_in_range book.now custom_literal t }
{
    (field(book, TERMS, t, LITERAL_NAME) < count(book, NAMES))
        & is_type(book, field(book, TERMS, t, LITERAL_TYPE))
        & uses(book, t, LITERAL_USES)
}

fn id_in_range(book: &[u8], t: usize) -> bool
    requires { AllLaid book.now × (t < size book.now terms) }
    ensures { result ≡ kind_in_range book.now id t }
{
    (field(book, TERMS, t, ID_CONSTANT) < count(book, CONSTANTS)) & uses(book, t, ID_USES)
}

fn built_in_in_range(book: &[u8], t: usize) -> bool
    requires { AllLaid book.now × (t < size book.now terms) }
    ensures { result ≡ kind_in_range book.now built_in t }
{
    (field(book, TERMS, t, OPERATOR) < count(book, NAMES))
        & is_range(book, TERMS, t, ARGUMENTS, count(book, TERMS))
        & uses(book, t, APPLICATION_USES)
}

fn application_in_range(book: &[u8], t: usize) -> bool
    requires { AllLaid book.now × (t < size book.now terms) }
    ensures { result ≡ kind_in_range book.now application t }
{
    (field(book, TERMS, t, OPERATOR) < count(book, FUNCTIONS))
        & is_range(book, TERMS, t, ARGUMENTS, count(book, TERMS))
        & uses(book, t, APPLICATION_USES)
}

fn if_then_else_in_range(book: &[u8], t: usize) -> bool
    requires { AllLaid book.now × (t < size book.now terms) }
    ensures { result ≡ kind_in_range book.now if_then_else t }
{
    let terms = count(book, TERMS);
    (field(book, TERMS, t, IF_GUARD) < terms)
        & (field(book, TERMS, t, IF_THEN) < terms)
        & (field(book, TERMS, t, IF_ELSE) < terms)
        & uses(book, t, IF_USES)
}

fn let_expr_in_range(book: &[u8], t: usize) -> bool
    requires { AllLaid book.now × (t < size book.now terms) }
    ensures { result ≡ kind_in_range book.now let_expr t }
{
    let terms = count(book, TERMS);
    (field(book, TERMS, t, LET_CONSTANT) < count(book, CONSTANTS))
        & (field(book, TERMS, t, LET_RHS) < terms)
        & (field(book, TERMS, t, LET_BODY) < terms)
        & uses(book, t, LET_USES)
}

fn quantifier_in_range(book: &[u8], t: usize) -> bool
    requires { AllLaid book.now × (t < size book.now terms) }
    ensures { result ≡ kind_in_range book.now quantifier_expr t }
{
    (field(book, TERMS, t, QUANTIFIER_UNIVERSAL) < TRUTHS)
        & is_range(book, TERMS, t, QUANTIFIER_CONSTANTS, count(book, CONSTANTS))
        & is_range(book, TERMS, t, QUANTIFIER_PATTERNS, count(book, PATTERNS))
        & (field(book, TERMS, t, QUANTIFIER_BODY) < count(book, TERMS))
}

fn term_in_range(book: &[u8], t: usize) -> bool
    requires { AllLaid book.now × (t < size book.now terms) }
    ensures { result ≡ term_in_range book.now t }
{
    let Ok(kind) = Kind::try_from(field(book, TERMS, t, KIND)) else {
        return false;
    };
    match kind {
        Kind::Boolean => boolean_in_range(book, t),
        Kind::Integer => uses(book, t, INTEGER_USES),
        Kind::CustomLiteral => literal_in_range(book, t),
        Kind::Id => id_in_range(book, t),
        Kind::BuiltIn => built_in_in_range(book, t),
        Kind::Application => application_in_range(book, t),
        Kind::IfThenElse => if_then_else_in_range(book, t),
        Kind::LetExpr => let_expr_in_range(book, t),
        Kind::QuantifierExpr => quantifier_in_range(book, t),
    }
}

pub fn terms_in_range(book: &[u8]) -> bool
    requires { AllLaid book.now }
    ensures { result ≡ terms_in_range book.now }
{
    (0..count(book, TERMS)).all(|t| term_in_range(book, t))
}
