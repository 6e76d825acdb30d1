#![tactic(auto)]
// The four calls over a session behind a reference, from one crate. A refused call leaves the session as it was.
ghost use Rattle.std.specs.Prelude.{[], is_ok};
ghost use Rattle.solvers.specs.Calls.{move_to, ask_for, reply_with, model_with};
ghost use Rattle.solvers.specs.Left.{called};
ghost use Rattle.solvers.specs.Returned.{lent, lent_text, heard, Returned};

use book::Refusal;
use solvers::{Answer, Session};

pub fn move_mut(
    s: &mut Session,
    book: &[u8],
    scratch: &mut [u8],
    node: u32,
    text: &mut [u8],
) -> Result<Answer, Refusal>
    ensures { Returned (called book.now s.old (move_to (lent scratch.old text.old []) node)) (record { answer = result; session = s.new }) text.new [] scratch.new }
{
    moves::move_mut(s, book, scratch, node, text)
}

pub fn ask_mut(
    s: &mut Session,
    book: &[u8],
    scratch: &mut [u8],
    node: u32,
    goal: u32,
    text: &mut [u8],
) -> Result<Answer, Refusal>
    ensures { Returned (called book.now s.old (ask_for (lent scratch.old text.old []) node goal)) (record { answer = result; session = s.new }) text.new [] scratch.new }
{
    moves::ask_mut(s, book, scratch, node, goal, text)
}

pub fn reply_mut(
    s: &mut Session,
    book: &[u8],
    scratch: &mut [u8],
    check: Result<&[u8], &[u8]>,
    text: &mut [u8],
    reason: &mut [u8],
) -> Result<Answer, Refusal>
    ensures { Returned (called book.now s.old (reply_with (lent scratch.old text.old reason.old) (is_ok check.entry) (heard check.entry))) (record { answer = result; session = s.new }) text.new reason.new scratch.new }
{
    replies::reply_mut(s, book, scratch, check, text, reason)
}

pub fn model_mut(
    s: &mut Session,
    book: &[u8],
    scratch: &mut [u8],
    reply: &[u8],
    model: Option<&[u8]>,
    text: &mut [u8],
    reason: &mut [u8],
) -> Result<Answer, Refusal>
    ensures { Returned (called book.now s.old (model_with (lent scratch.old text.old reason.old) reply.now (lent_text model.entry))) (record { answer = result; session = s.new }) text.new reason.new scratch.new }
{
    replies::model_mut(s, book, scratch, reply, model, text, reason)
}
