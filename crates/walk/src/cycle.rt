// DeclareNewSymbols: the cycle of calls. What falls is one number, of undeclared axioms and the term's number.
ghost use Rattle.std.specs.Prelude.{◌≡◌, ◌+◌, ◌<◌, get_or};
ghost use Rattle.book.specs.Book.{functions, axioms, terms, size};
ghost use Rattle.book_test.specs.Promise.{Range, GoodPatterns};
ghost use Rattle.rsolver.specs.LevelState.{axiom_places};
ghost use Rattle.levels.specs.Did.{Ready};
ghost use Rattle.walk.specs.Walk.{symbols_step, terms_step, patterns_step, operator_step, axioms_step, axiom_step, sent_axiom_step, Walked, Included, NewSymbols};

use super::leaves::{all_explained, declare_id, declare_variables, exclude_variables};
use book::format::*;
use book::{Kind, field};
use excluded::Excluded;
use levels::{
    AXIOM_PLACES, FUNCTION_PLACES, Level, Progress, declare_function, declare_type_of,
    declared_count, mark,
};
use literals::declare_literal;
use records::kind_of;
use smt_engines::assume;

// Term t.
#[cycle(walk)]
fn walk_term(
    book: &[u8],
    t: usize,
    exclude: &Excluded,
    level: Level,
    levels: &mut [Level],
    so: Progress,
    out: &mut [u8],
) -> Progress
    requires { Ready book.now level levels.old × (t < size book.now terms) }
    ensures { Walked (symbols_step book.now t) exclude.now.bits level levels.old levels.new so out.old out.new result }
{
    match kind_of(book, t) {
        Kind::Boolean => so,
        Kind::Integer => so,
        Kind::CustomLiteral => declare_literal(book, t, level, levels, so, out),
        Kind::Id => {
            let v = field(book, TERMS, t, ID_CONSTANT);
            declare_id(book, v, exclude, level, levels, so, out)
        }
        Kind::BuiltIn => {
            let start = field(book, TERMS, t, ARGUMENTS);
            let count = field(book, TERMS, t, ARGUMENTS_COUNT);
            walk_terms(book, t, start, count, exclude, level, levels, so, out)
        }
        Kind::Application => {
            let f = field(book, TERMS, t, OPERATOR);
            let done = walk_operator(book, f, level, levels, so, out);
            let start = field(book, TERMS, t, ARGUMENTS);
            let count = field(book, TERMS, t, ARGUMENTS_COUNT);
            walk_terms(book, t, start, count, exclude, level, levels, done, out)
        }
        Kind::IfThenElse => {
            let guard = field(book, TERMS, t, IF_GUARD);
            let one = walk_term(book, guard, exclude, level, levels, so, out);
            let thn = field(book, TERMS, t, IF_THEN);
            let two = walk_term(book, thn, exclude, level, levels, one, out);
            let els = field(book, TERMS, t, IF_ELSE);
            walk_term(book, els, exclude, level, levels, two, out)
        }
        Kind::LetExpr => {
            let v = field(book, TERMS, t, LET_CONSTANT);
            let one = declare_type_of(book, v, level, levels, so, out);
            let rhs = field(book, TERMS, t, LET_RHS);
            let two = walk_term(book, rhs, exclude, level, levels, one, out);
            let body = field(book, TERMS, t, LET_BODY);
            let more = exclude.with(v);
            walk_term(book, body, &more, level, levels, two, out)
        }
        Kind::QuantifierExpr => {
            let one = declare_variables(book, t, level, levels, so, out);
            let more = exclude_variables(book, t, exclude);
            let start = field(book, TERMS, t, QUANTIFIER_PATTERNS);
            let count = field(book, TERMS, t, QUANTIFIER_PATTERNS_COUNT);
            let two = walk_patterns(book, t, start, count, &more, level, levels, one, out);
            let body = field(book, TERMS, t, QUANTIFIER_BODY);
            walk_term(book, body, &more, level, levels, two, out)
        }
    }
}

// The terms in a range of lists, each below the limit. A loop of its own: a cycle through a closure gets no proof.
#[cycle(walk)]
fn walk_terms(
    book: &[u8],
    limit: usize,
    start: usize,
    count: usize,
    exclude: &Excluded,
    level: Level,
    levels: &mut [Level],
    so: Progress,
    out: &mut [u8],
) -> Progress
    requires { Ready book.now level levels.old × (limit < size book.now terms) × Range book.now limit start count }
    ensures { Walked (terms_step book.now start count) exclude.now.bits level levels.old levels.new so out.old out.new result }
{
    let mut done = so;
    for i in 0..count {
        let t = field(book, LISTS, start + i, LISTED);
        done = walk_term(book, t, exclude, level, levels, done, out);
    }
    done
}

// The patterns in a range of lists, whose terms are below the limit.
#[cycle(walk)]
fn walk_patterns(
    book: &[u8],
    limit: usize,
    start: usize,
    count: usize,
    exclude: &Excluded,
    level: Level,
    levels: &mut [Level],
    so: Progress,
    out: &mut [u8],
) -> Progress
    requires { Ready book.now level levels.old × (limit < size book.now terms) × GoodPatterns book.now limit start count }
    ensures { Walked (patterns_step book.now start count) exclude.now.bits level levels.old levels.new so out.old out.new result }
{
    let mut done = so;
    for i in 0..count {
        let p = field(book, LISTS, start + i, LISTED);
        let first = field(book, PATTERNS, p, PATTERN_TERMS);
        let many = field(book, PATTERNS, p, PATTERN_COUNT);
        done = walk_terms(book, limit, first, many, exclude, level, levels, done, out);
    }
    done
}

// Function k, where it is applied.
#[cycle(walk)]
fn walk_operator(
    book: &[u8],
    k: usize,
    level: Level,
    levels: &mut [Level],
    so: Progress,
    out: &mut [u8],
) -> Progress
    requires { Ready book.now level levels.old × (k < size book.now functions) }
    ensures { Included (operator_step book.now k) level levels.old levels.new so out.old out.new result }
{
    if levels[FUNCTION_PLACES + k] == 0 {
        let done = declare_function(book, k, level, levels, so, out);
        let start = field(book, FUNCTIONS, k, FUNCTION_EXPLAINED_BY);
        let count = field(book, FUNCTIONS, k, FUNCTION_EXPLAINED_BY + 1);
        walk_axioms(book, start, count, level, levels, done, out)
    } else {
        so
    }
}

// The axioms in a range of lists.
#[cycle(walk)]
fn walk_axioms(
    book: &[u8],
    start: usize,
    count: usize,
    level: Level,
    levels: &mut [Level],
    so: Progress,
    out: &mut [u8],
) -> Progress
    requires { Ready book.now level levels.old × Range book.now (size book.now axioms) start count }
    ensures { Included (axioms_step book.now start count) level levels.old levels.new so out.old out.new result }
{
    let mut done = so;
    for i in 0..count {
        let k = field(book, LISTS, start + i, LISTED);
        done = walk_axiom(book, k, level, levels, done, out);
    }
    done
}

// Axiom k: it is looked up, and sent where it is new and all that it explains is declared.
#[cycle(walk)]
fn walk_axiom(
    book: &[u8],
    k: usize,
    level: Level,
    levels: &mut [Level],
    so: Progress,
    out: &mut [u8],
) -> Progress
    requires { Ready book.now level levels.old × (k < size book.now axioms) }
    ensures { Included (axiom_step book.now k) level levels.old levels.new so out.old out.new result }
{
    let cond = field(book, AXIOMS, k, AXIOM_TERM);
    if cond == NO_TERM {
        return Progress {
            missing: true,
            ..so
        };
    }
    if levels[AXIOM_PLACES + k] == 0 && all_explained(book, k, levels) {
        send_axiom(book, k, cond, level, levels, so, out)
    } else {
        so
    }
}

// Axiom k, whose term is `cond`: marked, its own symbols declared with nothing excluded, asserted.
#[cycle(walk)]
fn send_axiom(
    book: &[u8],
    k: usize,
    cond: usize,
    level: Level,
    levels: &mut [Level],
    so: Progress,
    out: &mut [u8],
) -> Progress
    requires { Ready book.now level levels.old × (k < size book.now axioms) × (cond < size book.now terms) × (get_or levels.old (axiom_places + k) 0 ≡ 0) }
    ensures { Included (sent_axiom_step book.now k cond) level levels.old levels.new so out.old out.new result }
{
    mark(AXIOM_PLACES + k, level, levels);
    let none = Excluded::nothing();
    let done = walk_term(book, cond, &none, level, levels, so, out);
    let tag = declared_count(levels);
    let at = assume(book, cond, tag, done.at, out);
    Progress { at, ..done }
}

// DeclareNewSymbols of term t.
pub fn declare_new_symbols(
    book: &[u8],
    t: usize,
    level: Level,
    levels: &mut [Level],
    so: Progress,
    out: &mut [u8],
) -> Progress
    requires { Ready book.now level levels.old × (t < size book.now terms) }
    ensures { NewSymbols book.now t level levels.old levels.new so out.old out.new result }
{
    let none = Excluded::nothing();
    walk_term(book, t, &none, level, levels, so, out)
}
