// RExpr.ToString: the cycle of calls. What falls is the term's number.
ghost use Rattle.std.specs.Prelude.{◌<◌, ◌≤◌};
ghost use Rattle.basics.specs.Write.{WroteAt};
ghost use Rattle.book.specs.Book.{terms, size, field};
ghost use Rattle.book.specs.Decode.{term};
ghost use Rattle.book_test.specs.Promise.{Promise, Range, GoodPatterns, GoodIfThenElse, GoodLet, GoodQuantifier};
ghost use Rattle.rsolver.specs.Listing.{rexpr_to_string};
ghost use Rattle.listing_terms.specs.Texts.{terms_text, patterns_text, arguments_text, if_text, let_text, quantifier_text};
ghost use Rattle.listing_terms.specs.Fronted.{Fronted};

use super::Front;
use super::leaves::{
    bound_var_to_string, bound_vars_to_string, custom_literal_to_string, operator_to_string,
    put_boolean, put_closing, put_integer, put_lead, put_quantifier_opening,
};
use basics::put_at;
use book::format::{
    ARGUMENTS, ARGUMENTS_COUNT, CONSTANT_NAME, CONSTANTS, ID_CONSTANT, IF_ELSE, IF_GUARD, IF_THEN,
    LET_BODY, LET_CONSTANT, LET_RHS, LISTED, LISTS, PATTERN_COUNT, PATTERN_TERMS, PATTERNS,
    QUANTIFIER_BODY, QUANTIFIER_CONSTANTS, QUANTIFIER_CONSTANTS_COUNT, QUANTIFIER_PATTERNS,
    QUANTIFIER_PATTERNS_COUNT, TERMS,
};
use book::{Kind, field};
use records::{kind_of, named};

// Term t. A last child is printed in its turn, and its parenthesis closes with the others: only a child before other parts costs a call.
#[cycle(terms)]
pub fn rexpr_to_string(book: &[u8], t: usize, at: usize, out: &mut [u8]) -> usize
    requires { Promise book.now × (t < size book.now terms) }
    ensures { WroteAt (rexpr_to_string (term book.now t)) at out.old out.new result }
{
    let mut p = t;
    let mut pending = 0;
    let mut done = at;
    loop {
        let front = put_front(book, p, done, out);
        match front {
            Front::Whole(n) => {
                return put_closing(pending, n, out);
            }
            Front::Before(n, last) => {
                done = n;
                pending += 1;
                p = last;
            }
        }
    }
}

// Term t up to its last child.
#[cycle(terms)]
fn put_front(book: &[u8], t: usize, at: usize, out: &mut [u8]) -> Front
    requires { Promise book.now × (t < size book.now terms) }
    ensures { Fronted book.now (rexpr_to_string (term book.now t)) t at out.old out.new result }
{
    match kind_of(book, t) {
        Kind::Boolean => Front::Whole(put_boolean(book, t, at, out)),
        Kind::Integer => Front::Whole(put_integer(book, t, at, out)),
        Kind::CustomLiteral => Front::Whole(custom_literal_to_string(book, t, at, out)),
        Kind::Id => {
            let v = field(book, TERMS, t, ID_CONSTANT);
            Front::Whole(put_at(named(book, CONSTANTS, v, CONSTANT_NAME), at, out))
        }
        // One call of it: with two, each nested term costs more stack (docs/DECISIONS.md).
        Kind::BuiltIn | Kind::Application => put_application(book, t, at, out),
        Kind::IfThenElse => put_if(book, t, at, out),
        Kind::LetExpr => put_let(book, t, at, out),
        Kind::QuantifierExpr => put_quantifier(book, t, at, out),
    }
}

// An application, built-in or not.
#[cycle(terms)]
fn put_application(book: &[u8], t: usize, at: usize, out: &mut [u8]) -> Front
    requires { Promise book.now × (t < size book.now terms) × (4 ≤ field book.now terms t 0) × (field book.now terms t 0 ≤ 5) }
    ensures { Fronted book.now (rexpr_to_string (term book.now t)) t at out.old out.new result }
{
    let name = operator_to_string(book, t, at, out);
    put_arguments(book, t, name, out)
}

// The arguments of application t.
#[cycle(terms)]
fn put_arguments(book: &[u8], t: usize, at: usize, out: &mut [u8]) -> Front
    requires { Promise book.now × (t < size book.now terms) × Range book.now t (field book.now terms t 2) (field book.now terms t 3) }
    ensures { Fronted book.now (arguments_text book.now t) t at out.old out.new result }
{
    let start = field(book, TERMS, t, ARGUMENTS);
    let count = field(book, TERMS, t, ARGUMENTS_COUNT);
    if count == 0 {
        return Front::Whole(put_at(b"()", at, out));
    }
    let last = count - 1;
    let open = put_at(b"(", at, out);
    let before = rexpr_list_to_string(book, t, start, last, open, out);
    let n = put_lead(last, before, out);
    Front::Before(n, field(book, LISTS, start + last, LISTED))
}

// IfThenElse t.
#[cycle(terms)]
fn put_if(book: &[u8], t: usize, at: usize, out: &mut [u8]) -> Front
    requires { Promise book.now × (t < size book.now terms) × GoodIfThenElse book.now t }
    ensures { Fronted book.now (if_text book.now t) t at out.old out.new result }
{
    let word = put_at(b"(if ", at, out);
    let guard = rexpr_to_string(book, field(book, TERMS, t, IF_GUARD), word, out);
    let space = put_at(b" ", guard, out);
    let thn = rexpr_to_string(book, field(book, TERMS, t, IF_THEN), space, out);
    let n = put_at(b" else ", thn, out);
    Front::Before(n, field(book, TERMS, t, IF_ELSE))
}

// LetExpr t.
#[cycle(terms)]
fn put_let(book: &[u8], t: usize, at: usize, out: &mut [u8]) -> Front
    requires { Promise book.now × (t < size book.now terms) × GoodLet book.now t }
    ensures { Fronted book.now (let_text book.now t) t at out.old out.new result }
{
    let word = put_at(b"(val ", at, out);
    let v = bound_var_to_string(book, field(book, TERMS, t, LET_CONSTANT), word, out);
    let is = put_at(b" := ", v, out);
    let rhs = rexpr_to_string(book, field(book, TERMS, t, LET_RHS), is, out);
    let n = put_at(b" ", rhs, out);
    Front::Before(n, field(book, TERMS, t, LET_BODY))
}

// QuantifierExpr t.
#[cycle(terms)]
fn put_quantifier(book: &[u8], t: usize, at: usize, out: &mut [u8]) -> Front
    requires { Promise book.now × (t < size book.now terms) × GoodQuantifier book.now t }
    ensures { Fronted book.now (quantifier_text book.now t) t at out.old out.new result }
{
    let word = put_quantifier_opening(book, t, at, out);
    let first = field(book, TERMS, t, QUANTIFIER_CONSTANTS);
    let many = field(book, TERMS, t, QUANTIFIER_CONSTANTS_COUNT);
    let vars = bound_vars_to_string(book, first, many, word, out);
    let start = field(book, TERMS, t, QUANTIFIER_PATTERNS);
    let count = field(book, TERMS, t, QUANTIFIER_PATTERNS_COUNT);
    let patterns = patterns_to_string(book, t, start, count, vars, out);
    let n = put_at(b" ", patterns, out);
    Front::Before(n, field(book, TERMS, t, QUANTIFIER_BODY))
}

// RExprListToString of the terms in a range of lists, each below the limit. A loop of its own: a cycle through a closure gets no proof.
#[cycle(terms)]
fn rexpr_list_to_string(
    book: &[u8],
    limit: usize,
    start: usize,
    count: usize,
    at: usize,
    out: &mut [u8],
) -> usize
    requires { Promise book.now × (limit < size book.now terms) × Range book.now limit start count }
    ensures { WroteAt (terms_text book.now start count) at out.old out.new result }
{
    let mut done = at;
    for i in 0..count {
        let t = field(book, LISTS, start + i, LISTED);
        let next = put_lead(i, done, out);
        done = rexpr_to_string(book, t, next, out);
    }
    done
}

// PatternsToString of the patterns in a range of lists, whose terms are below the limit.
#[cycle(terms)]
fn patterns_to_string(
    book: &[u8],
    limit: usize,
    start: usize,
    count: usize,
    at: usize,
    out: &mut [u8],
) -> usize
    requires { Promise book.now × (limit < size book.now terms) × GoodPatterns book.now limit start count }
    ensures { WroteAt (patterns_text book.now start count) at out.old out.new result }
{
    let mut done = at;
    for i in 0..count {
        let p = field(book, LISTS, start + i, LISTED);
        let first = field(book, PATTERNS, p, PATTERN_TERMS);
        let many = field(book, PATTERNS, p, PATTERN_COUNT);
        let word = put_at(b" pattern ", done, out);
        done = rexpr_list_to_string(book, limit, first, many, word, out);
    }
    done
}
