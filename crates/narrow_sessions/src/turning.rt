// The turns by value.
ghost use Rattle.std.specs.Prelude.{◌≡◌, ltb};
ghost use Rattle.book.specs.Program.{depth};
ghost use Rattle.book.specs.Decode.{program};
ghost use Rattle.book_test.specs.Promise.{Promise};
ghost use Rattle.contexts.specs.Path.{IsNode};
ghost use Rattle.solvers.specs.Image.{no_session};
ghost use Rattle.solvers.specs.Narrow.{narrow_depth, wide_of, narrow_of, no_narrow, Bytes, widen_call, narrow_call};
ghost use Rattle.solvers.specs.Returned.{outcome_of};
ghost use Rattle.narrow_sessions.specs.Turned.{widened_in, narrowed_in, TurnReturned};

use super::level_turns::{narrow_levels, wide_levels};
use book::Refusal;
use book_test::book_test;
use engine::depth_of;
use session_test::is_session;
use solvers::{NarrowSession, Session};

// A narrow session's node is at most this deep.
const NARROW_DEPTH: usize = 64;

// No From: both types are crate solvers'.
fn wide_of(narrow: &NarrowSession) -> Session
    ensures { result ≡ wide_of narrow.now }
{
    Session {
        node: narrow.node,
        goal: narrow.goal,
        owed: narrow.owed,
        levels: wide_levels(&narrow.levels),
    }
}

fn narrow_of(wide: &Session) -> NarrowSession
    requires { Bytes wide.now.levels }
    ensures { result ≡ narrow_of wide.now }
{
    NarrowSession {
        node: wide.node,
        goal: wide.goal,
        owed: wide.owed,
        levels: narrow_levels(&wide.levels),
    }
}

// Too deep for the narrow kind.
fn is_deep(book: &[u8], node: usize) -> bool
    requires { IsNode book.now node }
    ensures { result ≡ ltb narrow_depth (depth (program book.now) node) }
{
    let depth = depth_of(book, node);
    NARROW_DEPTH < depth
}

// In a book that passed its test.
pub fn widen_in(s: &NarrowSession, book: &[u8]) -> Result<Session, Refusal>
    requires { Promise book.now }
    ensures { outcome_of result ≡ widened_in book.now s.now }
{
    let wide = wide_of(s);
    if !is_session(book, wide) {
        return Err(Refusal::NoSession);
    }
    if is_deep(book, wide.node as usize) {
        return Err(Refusal::NoSession);
    }
    Ok(wide)
}

// No record is declared deeper than the node, so the levels of what is not too deep fit a byte.
pub fn narrow_in(s: &Session, book: &[u8]) -> Result<NarrowSession, Refusal>
    requires { Promise book.now }
    ensures { outcome_of result ≡ narrowed_in book.now s.now }
{
    if !is_session(book, *s) {
        return Err(Refusal::NoSession);
    }
    if is_deep(book, s.node as usize) {
        return Err(Refusal::TooDeepForNarrow);
    }
    Ok(narrow_of(s))
}

// Any session, book and scratch are taken.
pub fn widen(s: &NarrowSession, book: &[u8], scratch: &mut [u8]) -> Result<Session, Refusal>
    ensures { TurnReturned (widen_call book.now s.now scratch.old) no_session result scratch.new }
{
    book_test(book, scratch)?;
    widen_in(s, book)
}

pub fn narrow(s: &Session, book: &[u8], scratch: &mut [u8]) -> Result<NarrowSession, Refusal>
    ensures { TurnReturned (narrow_call book.now s.now scratch.old) no_narrow result scratch.new }
{
    book_test(book, scratch)?;
    narrow_in(s, book)
}
