#![tactic(auto)]
// Refusal 20: the session is not the one that a fresh session has after a move to its node, but for an open question.
ghost use Rattle.std.specs.Prelude.{◌≡◌};
ghost use Rattle.book.specs.Decode.{program};
ghost use Rattle.book_test.specs.Promise.{Promise};
ghost use Rattle.solvers.specs.Calls.{goal_fits, is_session};

use book::count;
use book::format::{CONTEXTS, TERMS};
use engine::{ROOT, set_context};
use session_levels::{blank, same};
use solvers::{Owed, Session};

// The goal where no question is open.
const NO_GOAL: usize = 0;

fn goal_fits(owed: Owed, goal: usize, terms: usize) -> bool
    ensures { result ≡ goal_fits owed goal terms }
{
    match owed {
        Owed::Nothing => goal == NO_GOAL,
        Owed::Reply | Owed::Model => goal < terms,
    }
}

pub fn is_session(book: &[u8], s: Session) -> bool
    requires { Promise book.now }
    ensures { result ≡ is_session (program book.now) s }
{
    let node = s.node as usize;
    if count(book, CONTEXTS) < node {
        return false;
    }
    if !goal_fits(s.owed, s.goal as usize, count(book, TERMS)) {
        return false;
    }
    let mut levels = blank();
    let mut nowhere = [0; 0];
    let done = set_context(book, ROOT, node, &mut levels, &mut nowhere);
    !done.missing && same(&s.levels, &levels)
}
