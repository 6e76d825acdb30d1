#![tactic(auto)]
// Declares literals. One whose whole name is declared already is not declared again.
ghost use Rattle.std.specs.Prelude.{◌≡◌, ◌<◌, length, drop};
ghost use Rattle.book.specs.Book.{terms, size};
ghost use Rattle.book.specs.Decode.{literal_of, program};
ghost use Rattle.book.specs.RExpr.{is_tag};
ghost use Rattle.book_test.specs.Promise.{Promise, GoodLiteral};
ghost use Rattle.solver_expr.specs.Lowering.{literal_name};
ghost use Rattle.rsolver.specs.LevelState.{literal_places, level_count, name_in};
ghost use Rattle.levels.specs.Did.{Ready, Did};
ghost use Rattle.literal_names.specs.Names.{barred, Seeks};
ghost use Rattle.literals.specs.Literals.{new_literal_step, literal_step};

use basics::same;
use book::field;
use book::format::*;
use finding::find_literal;
use levels::{LITERAL_PLACES, Level, Progress, declare_new_types, mark};
use literal_names::{Sought, type_text};
use records::named;

mod finding;

// The term that a search has found, and how many literal terms it has gone through.
#[derive(Clone, Copy)]
pub struct Search {
    pub found: Option<usize>,
    pub gone: usize,
}

// The name is declared. The search has one caller, in which the compiler sees that its count is not read. Not inlined: its values would
// cost stack in each nested call of the walk.
#[inline(never)]
fn is_declared(book: &[u8], sought: Sought, s: &[u8], typ: &[u8], levels: &[Level]) -> bool
    requires { Promise book.now × Seeks book.now sought s.now typ.now × (length levels.now ≡ level_count) }
    ensures { result ≡ name_in (barred s.now typ.now) (program book.now).literals (drop literal_places levels.now) }
{
    find_literal(book, sought, s, typ, levels).found.is_some()
}

// The name of the literal that term t is, is declared.
fn is_named(book: &[u8], t: usize, levels: &[Level]) -> bool
    requires { Promise book.now × (t < size book.now terms) × GoodLiteral book.now t × (length levels.now ≡ level_count) }
    ensures { result ≡ name_in (literal_name (literal_of book.now t)) (program book.now).literals (drop literal_places levels.now) }
{
    let s = named(book, TERMS, t, LITERAL_NAME);
    let name = field(book, TERMS, t, LITERAL_NAME);
    let typ = field(book, TERMS, t, LITERAL_TYPE);
    is_declared(book, Sought { name, typ }, s, type_text(book, typ), levels)
}

// The literal that term t is prints as a number.
pub fn is_tag(book: &[u8], t: usize) -> bool
    requires { Promise book.now × (t < size book.now terms) × GoodLiteral book.now t }
    ensures { result ≡ is_tag (literal_of book.now t) }
{
    same(named(book, TERMS, t, LITERAL_NAME), b"%tag")
}

// Declares the literal that term t is, and its type.
fn send_literal(
    book: &[u8],
    t: usize,
    level: Level,
    levels: &mut [Level],
    so: Progress,
    out: &mut [u8],
) -> Progress
    requires { Ready book.now level levels.old × (t < size book.now terms) × GoodLiteral book.now t }
    ensures { Did (new_literal_step book.now t) level levels.old levels.new so out.old out.new result }
{
    let typ = field(book, TERMS, t, LITERAL_TYPE);
    let done = declare_new_types(book, typ, level, levels, so, out);
    mark(LITERAL_PLACES + t, level, levels);
    let at = smt_engines::declare_literal(book, t, done.at, out);
    Progress { at, ..done }
}

// DeclareNewSymbols of a CustomLiteral, term t.
pub fn declare_literal(
    book: &[u8],
    t: usize,
    level: Level,
    levels: &mut [Level],
    so: Progress,
    out: &mut [u8],
) -> Progress
    requires { Ready book.now level levels.old × (t < size book.now terms) × GoodLiteral book.now t }
    ensures { Did (literal_step book.now t) level levels.old levels.new so out.old out.new result }
{
    if is_tag(book, t) || is_named(book, t, levels) {
        so
    } else {
        send_literal(book, t, level, levels, so, out)
    }
}
