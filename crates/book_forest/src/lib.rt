#![tactic(auto)]
// Refusal 5: a child is smaller than its parent, and no term is referred to twice in the whole book.
ghost use Rattle.std.specs.Prelude.{◌≡◌, false, [], ◌∷◌, ◌+◌, ◌<◌, ◌≤◌, length, replicate};
ghost use Rattle.basics.specs.Lists.{join_below};
ghost use Rattle.book.specs.Book.{patterns, terms, axioms, contexts, lists, size, field};
ghost use Rattle.book.specs.Decode.{if_then_else, let_expr, quantifier_expr};
ghost use Rattle.book.specs.Laid.{Laid, AllLaid};
ghost use Rattle.book_forest.specs.Forest.{reference, range_references, listed_references, kind_references, term_references, axiom_references, context_references, is_forest};
ghost use Rattle.book_forest.specs.Followed.{ListsPatterns, Followed};
ghost use Rattle.book_forest.specs.Marks.{is_marked, set_mark, room, Marked};

use basics::{BITS, has_bit, with_bit};
use book::format::*;
use book::{Kind, count, field};

// A mark is a bit of the scratch. Only the next three functions know that.
fn set_mark(scratch: &mut [u8], t: usize)
    requires { (t < room scratch.old) × (is_marked scratch.old t ≡ false) }
    ensures { scratch.new ≡ set_mark scratch.old t }
{
    let at = t / BITS;
    scratch[at] = with_bit(scratch[at], t % BITS);
}

fn is_marked(scratch: &[u8], t: usize) -> bool
    requires { t < room scratch.now }
    ensures { result ≡ is_marked scratch.now t }
{
    has_bit(scratch[t / BITS], t % BITS)
}

// Clears every mark, and whatever else the scratch holds.
pub fn clear(scratch: &mut [u8])
    ensures { scratch.new ≡ replicate (length scratch.old) 0 }
{
    scratch.fill(0);
}

// Marks a term that is below the bound and has no mark yet.
fn mark(scratch: &mut [u8], bound: usize, t: usize) -> bool
    requires { bound ≤ room scratch.old }
    ensures { Marked scratch.old (reference bound t ∷ []) result scratch.new }
{
    if bound <= t {
        return false;
    }
    if is_marked(scratch, t) {
        return false;
    }
    set_mark(scratch, t);
    true
}

fn mark_range(book: &[u8], scratch: &mut [u8], bound: usize, start: usize, n: usize) -> bool
    requires { Laid book.now lists × (start + n ≤ size book.now lists) × (bound ≤ room scratch.old) }
    ensures { Marked scratch.old (range_references book.now bound start n) result scratch.new }
{
    for j in 0..n {
        if !mark(scratch, bound, field(book, LISTS, start + j, LISTED)) {
            return false;
        }
    }
    true
}

// The terms of a pattern count once for each time that it is listed.
fn mark_patterns(book: &[u8], scratch: &mut [u8], bound: usize, start: usize, n: usize) -> bool
    requires { AllLaid book.now × Followed book.now × ListsPatterns book.now start n × (bound ≤ room scratch.old) }
    ensures { Marked scratch.old (join_below n (listed_references book.now bound start)) result scratch.new }
{
    for j in 0..n {
        let p = field(book, LISTS, start + j, LISTED);
        if !mark_range(
            book,
            scratch,
            bound,
            field(book, PATTERNS, p, PATTERN_TERMS),
            field(book, PATTERNS, p, PATTERN_COUNT),
        ) {
            return false;
        }
    }
    true
}

fn mark_if(book: &[u8], scratch: &mut [u8], t: usize) -> bool
    requires { Laid book.now terms × (t < size book.now terms) × (t ≤ room scratch.old) }
    ensures { Marked scratch.old (kind_references book.now if_then_else t) result scratch.new }
{
    mark(scratch, t, field(book, TERMS, t, IF_GUARD))
        & mark(scratch, t, field(book, TERMS, t, IF_THEN))
        & mark(scratch, t, field(book, TERMS, t, IF_ELSE))
}

fn mark_let(book: &[u8], scratch: &mut [u8], t: usize) -> bool
    requires { Laid book.now terms × (t < size book.now terms) × (t ≤ room scratch.old) }
    ensures { Marked scratch.old (kind_references book.now let_expr t) result scratch.new }
{
    mark(scratch, t, field(book, TERMS, t, LET_RHS))
        & mark(scratch, t, field(book, TERMS, t, LET_BODY))
}

fn mark_quantifier(book: &[u8], scratch: &mut [u8], t: usize) -> bool
    requires { AllLaid book.now × Followed book.now × (t < size book.now terms) × (field book.now terms t 0 ≡ 8) × (t ≤ room scratch.old) }
    ensures { Marked scratch.old (kind_references book.now quantifier_expr t) result scratch.new }
{
    mark_patterns(
        book,
        scratch,
        t,
        field(book, TERMS, t, QUANTIFIER_PATTERNS),
        field(book, TERMS, t, QUANTIFIER_PATTERNS_COUNT),
    ) & mark(scratch, t, field(book, TERMS, t, QUANTIFIER_BODY))
}

// An application, built-in or not.
fn mark_arguments(book: &[u8], scratch: &mut [u8], t: usize) -> bool
    requires { AllLaid book.now × Followed book.now × (t < size book.now terms) × (4 ≤ field book.now terms t 0) × (field book.now terms t 0 ≤ 5) × (t ≤ room scratch.old) }
    ensures { Marked scratch.old (term_references book.now t) result scratch.new }
{
    mark_range(
        book,
        scratch,
        t,
        field(book, TERMS, t, ARGUMENTS),
        field(book, TERMS, t, ARGUMENTS_COUNT),
    )
}

fn mark_term(book: &[u8], scratch: &mut [u8], t: usize) -> bool
    requires { AllLaid book.now × Followed book.now × (t < size book.now terms) × (t ≤ room scratch.old) }
    ensures { Marked scratch.old (term_references book.now t) result scratch.new }
{
    let Ok(kind) = Kind::try_from(field(book, TERMS, t, KIND)) else {
        return true;
    };
    // By comparisons, which pass by the kinds that refer to nothing: a match on all kinds is a jump that goes wrong where kinds are mixed.
    if kind == Kind::BuiltIn || kind == Kind::Application {
        return mark_arguments(book, scratch, t);
    }
    if kind == Kind::IfThenElse {
        return mark_if(book, scratch, t);
    }
    if kind == Kind::LetExpr {
        return mark_let(book, scratch, t);
    }
    if kind == Kind::QuantifierExpr {
        return mark_quantifier(book, scratch, t);
    }
    true
}

fn mark_terms(book: &[u8], scratch: &mut [u8]) -> bool
    requires { AllLaid book.now × Followed book.now × (size book.now terms ≤ room scratch.old) }
    ensures { Marked scratch.old (join_below (size book.now terms) (term_references book.now)) result scratch.new }
{
    for t in 0..count(book, TERMS) {
        if !mark_term(book, scratch, t) {
            return false;
        }
    }
    true
}

fn mark_axiom(book: &[u8], scratch: &mut [u8], bound: usize, i: usize) -> bool
    requires { AllLaid book.now × (bound ≡ size book.now terms) × (i < size book.now axioms) × (bound ≤ room scratch.old) }
    ensures { Marked scratch.old (axiom_references book.now i) result scratch.new }
{
    let term = field(book, AXIOMS, i, AXIOM_TERM);
    if term == NO_TERM {
        return true;
    }
    mark(scratch, bound, term)
}

fn mark_axioms(book: &[u8], scratch: &mut [u8]) -> bool
    requires { AllLaid book.now × (size book.now terms ≤ room scratch.old) }
    ensures { Marked scratch.old (join_below (size book.now axioms) (axiom_references book.now)) result scratch.new }
{
    let bound = count(book, TERMS);
    for i in 0..count(book, AXIOMS) {
        if !mark_axiom(book, scratch, bound, i) {
            return false;
        }
    }
    true
}

fn mark_contexts(book: &[u8], scratch: &mut [u8]) -> bool
    requires { AllLaid book.now × (size book.now terms ≤ room scratch.old) }
    ensures { Marked scratch.old (join_below (size book.now contexts) (context_references book.now)) result scratch.new }
{
    let bound = count(book, TERMS);
    for i in 0..count(book, CONTEXTS) {
        if !mark(scratch, bound, field(book, CONTEXTS, i, CONTEXT_TERM)) {
            return false;
        }
    }
    true
}

// The scratch is all zero before and after.
pub fn is_forest(book: &[u8], scratch: &mut [u8]) -> bool
    requires { AllLaid book.now × Followed book.now × (size book.now terms ≤ room scratch.old) × (scratch.old ≡ replicate (length scratch.old) 0) }
    ensures { (result ≡ is_forest book.now) × (scratch.new ≡ replicate (length scratch.old) 0) }
{
    let ok = mark_terms(book, scratch) & mark_axioms(book, scratch) & mark_contexts(book, scratch);
    clear(scratch);
    ok
}
