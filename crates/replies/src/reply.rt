// The call reply.
ghost use Rattle.std.specs.Prelude.{◌≡◌, [], true, false, is_ok};
ghost use Rattle.book_test.specs.Promise.{Promise};
ghost use Rattle.solvers.specs.Session.{is_unsat, replied, give_reply};
ghost use Rattle.solvers.specs.Calls.{fitting, reply_with};
ghost use Rattle.solvers.specs.Left.{called};
ghost use Rattle.solvers.specs.Returned.{lent, heard, Returned, Given};
ghost use Rattle.replies.specs.Replies.{reply_in};

use super::closing::{close_proved, close_unproved};
use basics::same;
use book::Refusal;
use book_test::book_test;
use session_test::is_session;
use smt_engines::get_model;
use solvers::{Answer, Called, Owed, Session};

// The one reply on which a goal is proved.
const UNSAT: [u8; 5] = *b"unsat";

pub fn is_unsat(reply: &[u8]) -> bool
    ensures { result ≡ is_unsat reply.now }
{
    let unsat = UNSAT;
    same(reply, &unsat)
}

// The solver is asked for a model, which is then owed.
fn ask_model(session: &mut Session, text: &mut [u8]) -> Result<Answer, Refusal>
    ensures { Given (fitting (lent [] text.old []) (replied false session.old)) session.old (record { answer = result; session = session.new }) text.old text.new [] [] }
{
    let length = get_model(0, &mut []);
    if text.len() < length {
        return Err(Refusal::BufferTooShort);
    }
    get_model(0, text);
    session.owed = Owed::Model;
    Ok(Answer::Written(length))
}

// In a session that owes a reply. A failed check is not proved, whatever its error says.
fn reply_owed(
    session: &mut Session,
    check: Result<&[u8], &[u8]>,
    text: &mut [u8],
    reason: &mut [u8],
) -> Result<Answer, Refusal>
    ensures { Given (fitting (lent [] text.old reason.old) (give_reply session.old (is_ok check.entry) (heard check.entry))) session.old (record { answer = result; session = session.new }) text.old text.new reason.old reason.new }
{
    match check {
        Err(error) => close_unproved(session, error, None, text, reason),
        Ok(reply) if is_unsat(reply) => close_proved(session, text),
        Ok(_) => ask_model(session, text),
    }
}

// In a book that passed its test.
fn reply_in(
    session: &mut Session,
    book: &[u8],
    check: Result<&[u8], &[u8]>,
    text: &mut [u8],
    reason: &mut [u8],
) -> Result<Answer, Refusal>
    requires { Promise book.now }
    ensures { Given (reply_in book.now session.old (lent [] text.old reason.old) (is_ok check.entry) (heard check.entry)) session.old (record { answer = result; session = session.new }) text.old text.new reason.old reason.new }
{
    if !is_session(book, *session) {
        return Err(Refusal::NoSession);
    }
    match session.owed {
        Owed::Reply => reply_owed(session, check, text, reason),
        Owed::Nothing | Owed::Model => Err(Refusal::NoReplyOwed),
    }
}

// Any session, book, scratch, check and buffers are taken: the check's reply, or the error of one that failed. A refused call leaves the
// session as it was.
pub fn reply_mut(
    session: &mut Session,
    book: &[u8],
    scratch: &mut [u8],
    check: Result<&[u8], &[u8]>,
    text: &mut [u8],
    reason: &mut [u8],
) -> Result<Answer, Refusal>
    ensures { Returned (called book.now session.old (reply_with (lent scratch.old text.old reason.old) (is_ok check.entry) (heard check.entry))) (record { answer = result; session = session.new }) text.new reason.new scratch.new }
{
    book_test(book, scratch)?;
    reply_in(session, book, check, text, reason)
}

// The same by value.
pub fn give_reply(
    mut session: Session,
    book: &[u8],
    scratch: &mut [u8],
    check: Result<&[u8], &[u8]>,
    text: &mut [u8],
    reason: &mut [u8],
) -> Called
    ensures { Returned (called book.now session (reply_with (lent scratch.old text.old reason.old) (is_ok check.entry) (heard check.entry))) result text.new reason.new scratch.new }
{
    let answer = reply_mut(&mut session, book, scratch, check, text, reason);
    Called { answer, session }
}
