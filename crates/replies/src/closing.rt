// What closes a question, and the reason that a goal is not proved.
ghost use Rattle.std.specs.Prelude.{◌≡◌, [], ◌∷◌};
ghost use Rattle.basics.specs.Write.{WroteAt};
ghost use Rattle.smt_engines.specs.Command.{Pop, script};
ghost use Rattle.solvers.specs.Session.{Proved, Unproved, closed};
ghost use Rattle.solvers.specs.Calls.{fitting};
ghost use Rattle.solvers.specs.Returned.{lent, lent_text, Given};
ghost use Rattle.replies.specs.Replies.{reason_text};

use basics::put_at;
use book::Refusal;
use smt_engines::pop;
use solvers::{Answer, NO_GOAL, Owed, Session};

// What stands between reply and model in a reason.
const NEWLINE: u8 = b'\n';

// One pop of Prove in Solvers.dfy, one of Prove in RSolver.dfy.
fn two_pops(out: &mut [u8]) -> usize
    ensures { WroteAt (script (Pop ∷ Pop ∷ [])) 0 out.old out.new result }
{
    let one = pop(0, out);
    pop(one, out)
}

// The question is closed.
fn free(session: &mut Session)
    ensures { session.new ≡ (closed session.old Proved).session }
{
    session.goal = NO_GOAL;
    session.owed = Owed::Nothing;
}

// The reply, and behind a line end the model, if one came.
fn put_reason(reply: &[u8], model: Option<&[u8]>, out: &mut [u8]) -> usize
    ensures { WroteAt (reason_text reply.now (lent_text model.entry)) 0 out.old out.new result }
{
    let first = put_at(reply, 0, out);
    let Some(model) = model else {
        return first;
    };
    let line = put_at(&[NEWLINE], first, out);
    put_at(model, line, out)
}

// The goal is proved.
pub fn close_proved(session: &mut Session, text: &mut [u8]) -> Result<Answer, Refusal>
    ensures { Given (fitting (lent [] text.old []) (closed session.old Proved)) session.old (record { answer = result; session = session.new }) text.old text.new [] [] }
{
    let length = two_pops(&mut []);
    if text.len() < length {
        return Err(Refusal::BufferTooShort);
    }
    two_pops(text);
    free(session);
    Ok(Answer::Proved(length))
}

// The goal is not proved. Text and reason are measured before a buffer is touched.
pub fn close_unproved(
    session: &mut Session,
    reply: &[u8],
    model: Option<&[u8]>,
    text: &mut [u8],
    reason: &mut [u8],
) -> Result<Answer, Refusal>
    ensures { Given (fitting (lent [] text.old reason.old) (closed session.old (Unproved (reason_text reply.now (lent_text model.entry))))) session.old (record { answer = result; session = session.new }) text.old text.new reason.old reason.new }
{
    let length = two_pops(&mut []);
    if text.len() < length {
        return Err(Refusal::BufferTooShort);
    }
    let why = put_reason(reply, model, &mut []);
    if reason.len() < why {
        return Err(Refusal::BufferTooShort);
    }
    two_pops(text);
    put_reason(reply, model, reason);
    free(session);
    Ok(Answer::Unproved(length, why))
}
