#![tactic(auto)]
// The rows of SolverExpr.dfy's PP(seq): their parts, asked for by place. Nothing is written here.
ghost use Rattle.std.specs.Prelude.{◌≡◌, ◌+◌};
ghost use Rattle.book.specs.Book.{terms, lists, field};
ghost use Rattle.book.specs.Laid.{Reads};
ghost use Rattle.solver_expr.specs.Values.{Ready, word_text, quantifier_word};
ghost use Rattle.sexpr_rows.specs.Rows.{row_length, ReadyRow, ReadyPlace, Listed, Element, turn_for, Turned};

use book::field;
use book::format::*;
use solver_expr::{SExpr, SName, SRow, Word, to_sexpr, type_to_sexpr};

// A part of a row: an S-expression, or a term that is still to be lowered.
#[derive(Clone, Copy)]
pub enum Part {
    Known(SExpr),
    Term(usize),
}

// What a row has at a place: a name, a row, a row that is its last part, or nothing any more.
#[derive(Clone, Copy)]
pub enum Turn {
    Name(SName),
    Row(SRow),
    Last(SRow),
    End,
}

// The places of a row's first and second part.
const HEAD: usize = 0;

const SECOND: usize = 1;

// How many parts a row has, where its kind alone says that.
const NEGATION_PARTS: usize = 2;

const MINUS_PARTS: usize = 2;

// An application: its operator, then its arguments.
const OPERATOR_PARTS: usize = 1;

const ITE_PARTS: usize = 4;

const LET_PARTS: usize = 3;

const BINDINGS_PARTS: usize = 1;

const BINDING_PARTS: usize = 2;

const QUANTIFIER_PARTS: usize = 3;

const BOUND_VAR_PARTS: usize = 2;

// An annotated body: the word and the body, then a word and a row for each pattern.
const BODY_PARTS: usize = 2;

const PATTERN_PARTS: usize = 2;

fn row_length(book: &[u8], p: SRow) -> usize
    requires { ReadyRow book.now p }
    ensures { result ≡ row_length book.now p }
{
    match p {
        SRow::Negation(_) => NEGATION_PARTS,
        SRow::Minus(_) => MINUS_PARTS,
        SRow::Appl(t, _) => OPERATOR_PARTS + field(book, TERMS, t as usize, ARGUMENTS_COUNT),
        SRow::Ite(_) => ITE_PARTS,
        SRow::Let(_) => LET_PARTS,
        SRow::Bindings(_) => BINDINGS_PARTS,
        SRow::Binding(_) => BINDING_PARTS,
        SRow::Quantifier(_) => QUANTIFIER_PARTS,
        SRow::BoundVars(t) => field(book, TERMS, t, QUANTIFIER_CONSTANTS_COUNT),
        SRow::BoundVar(_) => BOUND_VAR_PARTS,
        SRow::Annotated(t) => {
            BODY_PARTS + PATTERN_PARTS * field(book, TERMS, t, QUANTIFIER_PATTERNS_COUNT)
        }
        SRow::Terms(p) => field(book, PATTERNS, p, PATTERN_COUNT),
        SRow::Types(f) => field(book, FUNCTIONS, f, FUNCTION_INPUTS_COUNT),
    }
}

fn keyword(w: Word) -> Part
    ensures { result ≡ Part.Known (SExpr.S (SName.Word w)) }
{
    Part::Known(SExpr::S(SName::Word(w)))
}

// Entry i of the range that starts at `start`.
fn entry(book: &[u8], start: usize, i: usize) -> usize
    requires { Listed book.now start i }
    ensures { Reads (field book.now lists (start + i) 0) result }
{
    field(book, LISTS, start + i, LISTED)
}

fn negation_part(book: &[u8], t: usize, i: usize) -> Part
    requires { ReadyPlace book.now (SRow.Negation t) i }
    ensures { Element book.now (SRow.Negation t) i result }
{
    if i == HEAD {
        keyword(Word::Not)
    } else {
        Part::Term(t)
    }
}

fn minus_part(book: &[u8], n: u64, i: usize) -> Part
    requires { ReadyPlace book.now (SRow.Minus n) i }
    ensures { Element book.now (SRow.Minus n) i result }
{
    if i == HEAD {
        keyword(Word::Minus)
    } else {
        Part::Known(SExpr::S(SName::Numeral(n)))
    }
}

fn appl_part(book: &[u8], op: SName, t: usize, i: usize) -> Part
    requires { ReadyPlace book.now (SRow.Appl t op) i }
    ensures { Element book.now (SRow.Appl t op) i result }
{
    if i == HEAD {
        Part::Known(SExpr::S(op))
    } else {
        Part::Term(entry(book, field(book, TERMS, t, ARGUMENTS), i - OPERATOR_PARTS))
    }
}

// The fields of an IfThenElse stand in the order of its parts, from the first on.
fn ite_part(book: &[u8], t: usize, i: usize) -> Part
    requires { ReadyPlace book.now (SRow.Ite t) i }
    ensures { Element book.now (SRow.Ite t) i result }
{
    if i == HEAD {
        keyword(Word::Ite)
    } else {
        Part::Term(field(book, TERMS, t, i))
    }
}

fn let_part(book: &[u8], t: usize, i: usize) -> Part
    requires { ReadyPlace book.now (SRow.Let t) i }
    ensures { Element book.now (SRow.Let t) i result }
{
    match i {
        HEAD => keyword(Word::Let),
        SECOND => Part::Known(SExpr::PP(SRow::Bindings(t))),
        _ => Part::Term(field(book, TERMS, t, LET_BODY)),
    }
}

fn binding_part(book: &[u8], t: usize, i: usize) -> Part
    requires { ReadyPlace book.now (SRow.Binding t) i }
    ensures { Element book.now (SRow.Binding t) i result }
{
    if i == HEAD {
        Part::Known(SExpr::id(book, field(book, TERMS, t, LET_CONSTANT)))
    } else {
        Part::Term(field(book, TERMS, t, LET_RHS))
    }
}

fn quantifier_word(book: &[u8], t: usize) -> Word
    requires { Ready book.now terms t }
    ensures { word_text result ≡ quantifier_word book.now t }
{
    if field(book, TERMS, t, QUANTIFIER_UNIVERSAL) == 0 {
        Word::Exists
    } else {
        Word::Forall
    }
}

fn body_part(book: &[u8], t: usize) -> Part
    requires { ReadyPlace book.now (SRow.Quantifier t) 2 }
    ensures { Element book.now (SRow.Quantifier t) 2 result }
{
    if field(book, TERMS, t, QUANTIFIER_PATTERNS_COUNT) == 0 {
        Part::Term(field(book, TERMS, t, QUANTIFIER_BODY))
    } else {
        Part::Known(SExpr::PP(SRow::Annotated(t)))
    }
}

fn quantifier_part(book: &[u8], t: usize, i: usize) -> Part
    requires { ReadyPlace book.now (SRow.Quantifier t) i }
    ensures { Element book.now (SRow.Quantifier t) i result }
{
    match i {
        HEAD => keyword(quantifier_word(book, t)),
        SECOND => Part::Known(SExpr::PP(SRow::BoundVars(t))),
        _ => body_part(book, t),
    }
}

fn vars_part(book: &[u8], t: usize, i: usize) -> Part
    requires { ReadyPlace book.now (SRow.BoundVars t) i }
    ensures { Element book.now (SRow.BoundVars t) i result }
{
    let v = entry(book, field(book, TERMS, t, QUANTIFIER_CONSTANTS), i);
    Part::Known(SExpr::PP(SRow::BoundVar(v)))
}

fn var_part(book: &[u8], v: usize, i: usize) -> Part
    requires { ReadyPlace book.now (SRow.BoundVar v) i }
    ensures { Element book.now (SRow.BoundVar v) i result }
{
    if i == HEAD {
        Part::Known(SExpr::id(book, v))
    } else {
        Part::Known(type_to_sexpr(book, field(book, CONSTANTS, v, CONSTANT_TYPE)))
    }
}

fn annotated_part(book: &[u8], t: usize, i: usize) -> Part
    requires { ReadyPlace book.now (SRow.Annotated t) i }
    ensures { Element book.now (SRow.Annotated t) i result }
{
    if i == HEAD {
        return keyword(Word::Bang);
    }
    if i < BODY_PARTS {
        return Part::Term(field(book, TERMS, t, QUANTIFIER_BODY));
    }
    if i % PATTERN_PARTS == 0 {
        return keyword(Word::Pattern);
    }
    let start = field(book, TERMS, t, QUANTIFIER_PATTERNS);
    Part::Known(SExpr::PP(SRow::Terms(entry(book, start, (i - BODY_PARTS) / PATTERN_PARTS))))
}

fn terms_part(book: &[u8], p: usize, i: usize) -> Part
    requires { ReadyPlace book.now (SRow.Terms p) i }
    ensures { Element book.now (SRow.Terms p) i result }
{
    Part::Term(entry(book, field(book, PATTERNS, p, PATTERN_TERMS), i))
}

fn types_part(book: &[u8], f: usize, i: usize) -> Part
    requires { ReadyPlace book.now (SRow.Types f) i }
    ensures { Element book.now (SRow.Types f) i result }
{
    let k = entry(book, field(book, FUNCTIONS, f, FUNCTION_INPUTS), i);
    Part::Known(type_to_sexpr(book, k))
}

fn part_of(book: &[u8], p: SRow, i: usize) -> Part
    requires { ReadyPlace book.now p i }
    ensures { Element book.now p i result }
{
    match p {
        SRow::Negation(t) => negation_part(book, t, i),
        SRow::Minus(n) => minus_part(book, n, i),
        SRow::Appl(t, op) => appl_part(book, op, t as usize, i),
        SRow::Ite(t) => ite_part(book, t, i),
        SRow::Let(t) => let_part(book, t, i),
        SRow::Bindings(t) => Part::Known(SExpr::PP(SRow::Binding(t))),
        SRow::Binding(t) => binding_part(book, t, i),
        SRow::Quantifier(t) => quantifier_part(book, t, i),
        SRow::BoundVars(t) => vars_part(book, t, i),
        SRow::BoundVar(v) => var_part(book, v, i),
        SRow::Annotated(t) => annotated_part(book, t, i),
        SRow::Terms(p) => terms_part(book, p, i),
        SRow::Types(f) => types_part(book, f, i),
    }
}

// The turn of a part: whether more parts stand behind it counts where it is a row.
fn turn_for(e: SExpr, more: bool) -> Turn
    ensures { result ≡ turn_for e more }
{
    match e {
        SExpr::S(name) => Turn::Name(name),
        SExpr::PP(q) => { if more { Turn::Row(q) } else { Turn::Last(q) } }
    }
}

pub fn turn_of(book: &[u8], p: SRow, i: usize) -> Turn
    requires { ReadyRow book.now p }
    ensures { Turned book.now p i result }
{
    let n = row_length(book, p);
    if n <= i {
        return Turn::End;
    }
    let more = i + 1 < n;
    match part_of(book, p, i) {
        Part::Known(e) => turn_for(e, more),
        Part::Term(t) => turn_for(to_sexpr(book, t), more),
    }
}
