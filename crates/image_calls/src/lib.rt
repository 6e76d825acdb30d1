#![tactic(auto)]
// The calls on a session's byte image, which the host holds: loaded, called, and stored again where the call is accepted. A refused call
// leaves the image as it was.
ghost use Rattle.std.specs.Prelude.{[], is_ok};
ghost use Rattle.solvers.specs.Calls.{move_to, ask_for, reply_with, model_with};
ghost use Rattle.solvers.specs.Image.{called_on_image};
ghost use Rattle.solvers.specs.Returned.{lent, lent_text, heard};
ghost use Rattle.image_calls.specs.Stored.{ImageReturned, FreshImage};

use book::Refusal;
use images::{IMAGE, load, save};
use moves::{ask_mut, move_mut};
use replies::{model_mut, reply_mut};
use solvers::{Answer, Session};

// The four calls are four lines each: a closure over the call's buffers would be no shorter.
pub fn move_image(
    book: &[u8],
    scratch: &mut [u8],
    image: &mut [u8],
    node: u32,
    text: &mut [u8],
) -> Result<Answer, Refusal>
    ensures { ImageReturned (called_on_image book.now image.old (move_to (lent scratch.old text.old []) node)) result image.new text.new [] scratch.new }
{
    let mut session = load(image);
    let answer = move_mut(&mut session, book, scratch, node, text)?;
    save(&session, image);
    Ok(answer)
}

pub fn ask_image(
    book: &[u8],
    scratch: &mut [u8],
    image: &mut [u8],
    node: u32,
    goal: u32,
    text: &mut [u8],
) -> Result<Answer, Refusal>
    ensures { ImageReturned (called_on_image book.now image.old (ask_for (lent scratch.old text.old []) node goal)) result image.new text.new [] scratch.new }
{
    let mut session = load(image);
    let answer = ask_mut(&mut session, book, scratch, node, goal, text)?;
    save(&session, image);
    Ok(answer)
}

pub fn reply_image(
    book: &[u8],
    scratch: &mut [u8],
    image: &mut [u8],
    check: Result<&[u8], &[u8]>,
    text: &mut [u8],
    reason: &mut [u8],
) -> Result<Answer, Refusal>
    ensures { ImageReturned (called_on_image book.now image.old (reply_with (lent scratch.old text.old reason.old) (is_ok check.entry) (heard check.entry))) result image.new text.new reason.new scratch.new }
{
    let mut session = load(image);
    let answer = reply_mut(&mut session, book, scratch, check, text, reason)?;
    save(&session, image);
    Ok(answer)
}

pub fn model_image(
    book: &[u8],
    scratch: &mut [u8],
    image: &mut [u8],
    reply: &[u8],
    model: Option<&[u8]>,
    text: &mut [u8],
    reason: &mut [u8],
) -> Result<Answer, Refusal>
    ensures { ImageReturned (called_on_image book.now image.old (model_with (lent scratch.old text.old reason.old) reply.now (lent_text model.entry))) result image.new text.new reason.new scratch.new }
{
    let mut session = load(image);
    let answer = model_mut(&mut session, book, scratch, reply, model, text, reason)?;
    save(&session, image);
    Ok(answer)
}

// Writes a fresh session's image where there is room for just that.
pub fn fresh_image(image: &mut [u8]) -> Result<(), Refusal>
    ensures { FreshImage image.old result image.new }
{
    if image.len() != IMAGE {
        return Err(Refusal::NoSession);
    }
    save(&Session::fresh(), image);
    Ok(())
}
