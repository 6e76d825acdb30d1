// The call ask.
ghost use Rattle.std.specs.Prelude.{[]};
ghost use Rattle.book_test.specs.Promise.{Promise};
ghost use Rattle.book.specs.Decode.{term, program};
ghost use Rattle.solvers.specs.declared.Owed.TheVariants.{Reply};
ghost use Rattle.solvers.specs.Calls.{ask_for};
ghost use Rattle.solvers.specs.Left.{called};
ghost use Rattle.solvers.specs.Returned.{lent, Returned, Given};
ghost use Rattle.solvers.specs.Rule.{goal_state, present, session_at};
ghost use Rattle.moves.specs.Moves.{Asker, Measured, Arrived, ask_commands, ask_known, ask_in};

use book::format::{CONTEXTS, TERMS};
use book::{Refusal, count};
use book_test::book_test;
use engine::question;
use levels::Progress;
use session_test::is_session;
use solvers::{Answer, Called, Owed, Session};

// The text on an empty slice: its length, and whether an axiom is missing.
fn measure(session: &Session, book: &[u8], node: u32, goal: u32) -> Progress
    requires { Asker book.now session.now node goal }
    ensures { Measured (ask_commands book.now session.now.node node goal) (goal_state (program book.now) node (term book.now goal)) result }
{
    let mut levels = session.levels;
    let from = session.node as usize;
    question(
        book,
        from,
        node as usize,
        goal as usize,
        &mut levels,
        &mut [],
    )
}

// Writes the text, and leaves a session that owes a reply.
fn wait(session: &mut Session, book: &[u8], node: u32, goal: u32, text: &mut [u8])
    requires { Asker book.now session.old node goal }
    ensures { Arrived (ask_commands book.now session.old.node node goal) (session_at book.now (present node goal Reply)) session.new text.old text.new }
{
    let from = session.node as usize;
    question(
        book,
        from,
        node as usize,
        goal as usize,
        &mut session.levels,
        text,
    );
    session.node = node;
    session.goal = goal;
    session.owed = Owed::Reply;
}

// In a session of this book with no open question. The text is measured before the buffer is touched.
fn ask_known(
    session: &mut Session,
    book: &[u8],
    node: u32,
    goal: u32,
    text: &mut [u8],
) -> Result<Answer, Refusal>
    requires { Asker book.now session.old node goal }
    ensures { Given (ask_known book.now session.old.node (lent [] text.old []) node goal) session.old (record { answer = result; session = session.new }) text.old text.new [] [] }
{
    let measured = measure(session, book, node, goal);
    if measured.missing {
        return Err(Refusal::MissingAxiom);
    }
    if text.len() < measured.at {
        return Err(Refusal::BufferTooShort);
    }
    wait(session, book, node, goal, text);
    Ok(Answer::Written(measured.at))
}

// In a book that passed its test.
fn ask_in(
    session: &mut Session,
    book: &[u8],
    node: u32,
    goal: u32,
    text: &mut [u8],
) -> Result<Answer, Refusal>
    requires { Promise book.now }
    ensures { Given (ask_in book.now session.old (lent [] text.old []) node goal) session.old (record { answer = result; session = session.new }) text.old text.new [] [] }
{
    if count(book, CONTEXTS) < node as usize {
        return Err(Refusal::NotInBook);
    }
    if count(book, TERMS) <= goal as usize {
        return Err(Refusal::NotInBook);
    }
    if !is_session(book, *session) {
        return Err(Refusal::NoSession);
    }
    match session.owed {
        Owed::Nothing => ask_known(session, book, node, goal, text),
        Owed::Reply | Owed::Model => Err(Refusal::QuestionOpen),
    }
}

// Any session, book, scratch, node, goal and text buffer are taken. A refused call leaves the session as it was.
pub fn ask_mut(
    session: &mut Session,
    book: &[u8],
    scratch: &mut [u8],
    node: u32,
    goal: u32,
    text: &mut [u8],
) -> Result<Answer, Refusal>
    ensures { Returned (called book.now session.old (ask_for (lent scratch.old text.old []) node goal)) (record { answer = result; session = session.new }) text.new [] scratch.new }
{
    book_test(book, scratch)?;
    ask_in(session, book, node, goal, text)
}

// The same by value.
pub fn ask(
    mut session: Session,
    book: &[u8],
    scratch: &mut [u8],
    node: u32,
    goal: u32,
    text: &mut [u8],
) -> Called
    ensures { Returned (called book.now session (ask_for (lent scratch.old text.old []) node goal)) result text.new [] scratch.new }
{
    let answer = ask_mut(&mut session, book, scratch, node, goal, text);
    Called { answer, session }
}
