// The call model.
ghost use Rattle.std.specs.Prelude.{[]};
ghost use Rattle.book_test.specs.Promise.{Promise};
ghost use Rattle.solvers.specs.Calls.{model_with};
ghost use Rattle.solvers.specs.Left.{called};
ghost use Rattle.solvers.specs.Returned.{lent, lent_text, Returned, Given};
ghost use Rattle.replies.specs.Replies.{model_owed, model_in};

use super::closing::close_unproved;
use super::reply::is_unsat;
use book::Refusal;
use book_test::book_test;
use session_test::is_session;
use solvers::{Answer, Called, Owed, Session};

// In a session that owes a model.
fn model_owed(
    session: &mut Session,
    reply: &[u8],
    model: Option<&[u8]>,
    text: &mut [u8],
    reason: &mut [u8],
) -> Result<Answer, Refusal>
    ensures { Given (model_owed session.old (lent [] text.old reason.old) reply.now (lent_text model.entry)) session.old (record { answer = result; session = session.new }) text.old text.new reason.old reason.new }
{
    if is_unsat(reply) {
        return Err(Refusal::ReplyIsUnsat);
    }
    close_unproved(session, reply, model, text, reason)
}

// In a book that passed its test.
fn model_in(
    session: &mut Session,
    book: &[u8],
    reply: &[u8],
    model: Option<&[u8]>,
    text: &mut [u8],
    reason: &mut [u8],
) -> Result<Answer, Refusal>
    requires { Promise book.now }
    ensures { Given (model_in book.now session.old (lent [] text.old reason.old) reply.now (lent_text model.entry)) session.old (record { answer = result; session = session.new }) text.old text.new reason.old reason.new }
{
    if !is_session(book, *session) {
        return Err(Refusal::NoSession);
    }
    match session.owed {
        Owed::Model => model_owed(session, reply, model, text, reason),
        Owed::Nothing | Owed::Reply => Err(Refusal::NoModelOwed),
    }
}

// Any session, book, scratch, reply, model and buffers are taken. The reply is the one that the reply call was given. A refused call leaves
// the session as it was.
pub fn model_mut(
    session: &mut Session,
    book: &[u8],
    scratch: &mut [u8],
    reply: &[u8],
    model: Option<&[u8]>,
    text: &mut [u8],
    reason: &mut [u8],
) -> Result<Answer, Refusal>
    ensures { Returned (called book.now session.old (model_with (lent scratch.old text.old reason.old) reply.now (lent_text model.entry))) (record { answer = result; session = session.new }) text.new reason.new scratch.new }
{
    book_test(book, scratch)?;
    model_in(session, book, reply, model, text, reason)
}

// The same by value.
pub fn give_model(
    mut session: Session,
    book: &[u8],
    scratch: &mut [u8],
    reply: &[u8],
    model: Option<&[u8]>,
    text: &mut [u8],
    reason: &mut [u8],
) -> Called
    ensures { Returned (called book.now session (model_with (lent scratch.old text.old reason.old) reply.now (lent_text model.entry))) result text.new reason.new scratch.new }
{
    let answer = model_mut(&mut session, book, scratch, reply, model, text, reason);
    Called { answer, session }
}
