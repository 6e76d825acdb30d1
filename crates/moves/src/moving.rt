// The call move.
ghost use Rattle.std.specs.Prelude.{[]};
ghost use Rattle.book_test.specs.Promise.{Promise};
ghost use Rattle.book.specs.Decode.{program};
ghost use Rattle.engine.specs.Engine.{state_at};
ghost use Rattle.solvers.specs.declared.Owed.TheVariants.{Nothing};
ghost use Rattle.solvers.specs.Calls.{move_to};
ghost use Rattle.solvers.specs.Left.{called};
ghost use Rattle.solvers.specs.Returned.{lent, Returned, Given};
ghost use Rattle.solvers.specs.Rule.{move_commands, present, session_at};
ghost use Rattle.moves.specs.Moves.{Mover, Measured, Arrived, move_known, move_in};

use book::format::CONTEXTS;
use book::{Refusal, count};
use book_test::book_test;
use engine::set_context;
use levels::Progress;
use session_test::is_session;
use solvers::{Answer, Called, NO_GOAL, Owed, Session};

// The text on an empty slice: its length, and whether an axiom is missing. Beside asking.rt each part is a call of another function of
// engine, with another contract: one function for both would take the calls apart again.
fn measure(session: &Session, book: &[u8], node: u32) -> Progress
    requires { Mover book.now session.now node }
    ensures { Measured (move_commands (program book.now) session.now.node node) (state_at book.now node) result }
{
    let mut levels = session.levels;
    let from = session.node as usize;
    set_context(book, from, node as usize, &mut levels, &mut [])
}

// Writes the text, and leaves the session at the node.
fn arrive(session: &mut Session, book: &[u8], node: u32, text: &mut [u8])
    requires { Mover book.now session.old node }
    ensures { Arrived (move_commands (program book.now) session.old.node node) (session_at book.now (present node 0 Nothing)) session.new text.old text.new }
{
    let from = session.node as usize;
    set_context(book, from, node as usize, &mut session.levels, text);
    session.node = node;
    session.goal = NO_GOAL;
    session.owed = Owed::Nothing;
}

// In a session of this book with no open question. The text is measured before the buffer is touched.
fn move_known(
    session: &mut Session,
    book: &[u8],
    node: u32,
    text: &mut [u8],
) -> Result<Answer, Refusal>
    requires { Mover book.now session.old node }
    ensures { Given (move_known book.now session.old.node (lent [] text.old []) node) session.old (record { answer = result; session = session.new }) text.old text.new [] [] }
{
    let measured = measure(session, book, node);
    if measured.missing {
        return Err(Refusal::MissingAxiom);
    }
    if text.len() < measured.at {
        return Err(Refusal::BufferTooShort);
    }
    arrive(session, book, node, text);
    Ok(Answer::Written(measured.at))
}

// In a book that passed its test.
fn move_in(
    session: &mut Session,
    book: &[u8],
    node: u32,
    text: &mut [u8],
) -> Result<Answer, Refusal>
    requires { Promise book.now }
    ensures { Given (move_in book.now session.old (lent [] text.old []) node) session.old (record { answer = result; session = session.new }) text.old text.new [] [] }
{
    if count(book, CONTEXTS) < node as usize {
        return Err(Refusal::NotInBook);
    }
    if !is_session(book, *session) {
        return Err(Refusal::NoSession);
    }
    match session.owed {
        Owed::Nothing => move_known(session, book, node, text),
        Owed::Reply | Owed::Model => Err(Refusal::QuestionOpen),
    }
}

// Any session, book, scratch, node and text buffer are taken. A refused call leaves the session as it was.
pub fn move_mut(
    session: &mut Session,
    book: &[u8],
    scratch: &mut [u8],
    node: u32,
    text: &mut [u8],
) -> Result<Answer, Refusal>
    ensures { Returned (called book.now session.old (move_to (lent scratch.old text.old []) node)) (record { answer = result; session = session.new }) text.new [] scratch.new }
{
    book_test(book, scratch)?;
    move_in(session, book, node, text)
}

// The same by value.
pub fn move_to(
    mut session: Session,
    book: &[u8],
    scratch: &mut [u8],
    node: u32,
    text: &mut [u8],
) -> Called
    ensures { Returned (called book.now session (move_to (lent scratch.old text.old []) node)) result text.new [] scratch.new }
{
    let answer = move_mut(&mut session, book, scratch, node, text);
    Called { answer, session }
}
