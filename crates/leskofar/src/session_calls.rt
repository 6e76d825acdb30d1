// The calls move, ask, reply and model, on the byte image of a session; and its turns to the narrow kind and back.
ghost use Rattle.std.specs.Prelude.{◌≡◌, [], is_ok};
ghost use Rattle.solvers.specs.Calls.{move_to, ask_for, reply_with, model_with};
ghost use Rattle.solvers.specs.Left.{answer_value};
ghost use Rattle.solvers.specs.Image.{called_on_image};
ghost use Rattle.solvers.specs.Narrow.{widened_on_image, narrowed_on_image};
ghost use Rattle.solvers.specs.Returned.{lent, lent_text, heard};
ghost use Rattle.basics.specs.Text.{given};
ghost use Rattle.image_calls.specs.Stored.{fresh_image};
ghost use Rattle.leskofar.specs.Exports.{refusal_of, flag, answered, fresh_refusal};

use super::{ACCEPTED, refusal};
use book::Refusal;
use image_calls::{ask_image, fresh_image, model_image, move_image, reply_image};
use narrow_sessions::{narrow_image, widen_image};
use refusal_numbers::number;
use solvers::Answer;

// What an accepted call gives: a text, and of a goal that it is proved, or with a reason that it is not.
const WRITTEN: u32 = 0;

const PROVED: u32 = 1;

const UNPROVED: u32 = 2;

// The answer of a session's call: 0, what it gives and the lengths of text and reason; or the refusal's number.
#[repr(C)]
#[derive(Clone, Copy)]
pub struct Answered {
    pub refusal: u32,
    pub result: u32,
    pub text: u64,
    pub reason: u64,
}

fn accepted(res: u32, text: usize, reason: usize) -> Answered
    ensures { result ≡ record { refusal = 0; result = res; text = text; reason = reason } }
{
    Answered {
        refusal: ACCEPTED,
        result: res,
        text: text as u64,
        reason: reason as u64,
    }
}

fn given(answer: Answer) -> Answered
    ensures { result ≡ answered (answer_value (Ok answer)) }
{
    match answer {
        Answer::Written(n) => accepted(WRITTEN, n, 0),
        Answer::Proved(n) => accepted(PROVED, n, 0),
        Answer::Unproved(n, m) => accepted(UNPROVED, n, m),
    }
}

fn answer(a: Result<Answer, Refusal>) -> Answered
    ensures { result ≡ answered (answer_value a) }
{
    match a {
        Ok(answer) => given(answer),
        Err(why) => Answered {
            refusal: number(why),
            result: 0,
            text: 0,
            reason: 0,
        },
    }
}

// A check's reply, or the error of one that failed, by C's flag.
fn checked(ok: u32, reply: &[u8]) -> Result<&[u8], &[u8]>
    ensures { (is_ok result ≡ flag ok) × (heard result ≡ reply.now) }
{
    if ok != 0 { Ok(reply) } else { Err(reply) }
}

// The model, if one came, by C's flag.
fn sent(came: u32, model: &[u8]) -> Option<&[u8]>
    ensures { lent_text result ≡ given (flag came) model.now }
{
    if came != 0 { Some(model) } else { None }
}

#[unsafe(no_mangle)]
pub extern "C" fn leskofar_fresh(image: &mut [u8]) -> u32
    ensures { (result ≡ fresh_refusal image.old) × (image.new ≡ fresh_image image.old) }
{
    refusal(fresh_image(image))
}

#[unsafe(no_mangle)]
pub extern "C" fn leskofar_move(
    book: &[u8],
    scratch: &mut [u8],
    image: &mut [u8],
    node: u32,
    text: &mut [u8],
) -> Answered
    ensures answer { result ≡ answered (called_on_image book.now image.old (move_to (lent scratch.old text.old []) node)).answer }
    ensures image { image.new ≡ (called_on_image book.now image.old (move_to (lent scratch.old text.old []) node)).image }
    ensures text { text.new ≡ (called_on_image book.now image.old (move_to (lent scratch.old text.old []) node)).text }
    ensures scratch { scratch.new ≡ (called_on_image book.now image.old (move_to (lent scratch.old text.old []) node)).scratch }
{
    answer(move_image(book, scratch, image, node, text))
}

#[unsafe(no_mangle)]
pub extern "C" fn leskofar_ask(
    book: &[u8],
    scratch: &mut [u8],
    image: &mut [u8],
    node: u32,
    goal: u32,
    text: &mut [u8],
) -> Answered
    ensures answer { result ≡ answered (called_on_image book.now image.old (ask_for (lent scratch.old text.old []) node goal)).answer }
    ensures image { image.new ≡ (called_on_image book.now image.old (ask_for (lent scratch.old text.old []) node goal)).image }
    ensures text { text.new ≡ (called_on_image book.now image.old (ask_for (lent scratch.old text.old []) node goal)).text }
    ensures scratch { scratch.new ≡ (called_on_image book.now image.old (ask_for (lent scratch.old text.old []) node goal)).scratch }
{
    answer(ask_image(book, scratch, image, node, goal, text))
}

#[unsafe(no_mangle)]
pub extern "C" fn leskofar_reply(
    book: &[u8],
    scratch: &mut [u8],
    image: &mut [u8],
    ok: u32,
    reply: &[u8],
    text: &mut [u8],
    reason: &mut [u8],
) -> Answered
    ensures answer { result ≡ answered (called_on_image book.now image.old (reply_with (lent scratch.old text.old reason.old) (flag ok) reply.now)).answer }
    ensures image { image.new ≡ (called_on_image book.now image.old (reply_with (lent scratch.old text.old reason.old) (flag ok) reply.now)).image }
    ensures text { text.new ≡ (called_on_image book.now image.old (reply_with (lent scratch.old text.old reason.old) (flag ok) reply.now)).text }
    ensures reason { reason.new ≡ (called_on_image book.now image.old (reply_with (lent scratch.old text.old reason.old) (flag ok) reply.now)).reason }
    ensures scratch { scratch.new ≡ (called_on_image book.now image.old (reply_with (lent scratch.old text.old reason.old) (flag ok) reply.now)).scratch }
{
    answer(reply_image(book, scratch, image, checked(ok, reply), text, reason))
}

#[unsafe(no_mangle)]
pub extern "C" fn leskofar_model(
    book: &[u8],
    scratch: &mut [u8],
    image: &mut [u8],
    reply: &[u8],
    came: u32,
    model: &[u8],
    text: &mut [u8],
    reason: &mut [u8],
) -> Answered
    ensures answer { result ≡ answered (called_on_image book.now image.old (model_with (lent scratch.old text.old reason.old) reply.now (given (flag came) model.now))).answer }
    ensures image { image.new ≡ (called_on_image book.now image.old (model_with (lent scratch.old text.old reason.old) reply.now (given (flag came) model.now))).image }
    ensures text { text.new ≡ (called_on_image book.now image.old (model_with (lent scratch.old text.old reason.old) reply.now (given (flag came) model.now))).text }
    ensures reason { reason.new ≡ (called_on_image book.now image.old (model_with (lent scratch.old text.old reason.old) reply.now (given (flag came) model.now))).reason }
    ensures scratch { scratch.new ≡ (called_on_image book.now image.old (model_with (lent scratch.old text.old reason.old) reply.now (given (flag came) model.now))).scratch }
{
    answer(model_image(book, scratch, image, reply, sent(came, model), text, reason))
}

#[unsafe(no_mangle)]
pub extern "C" fn leskofar_widen(
    book: &[u8],
    scratch: &mut [u8],
    narrow: &[u8],
    image: &mut [u8],
) -> u32
    ensures answer { result ≡ refusal_of (widened_on_image book.now scratch.old narrow.now image.old).answer }
    ensures image { image.new ≡ (widened_on_image book.now scratch.old narrow.now image.old).image }
    ensures scratch { scratch.new ≡ (widened_on_image book.now scratch.old narrow.now image.old).scratch }
{
    refusal(widen_image(book, scratch, narrow, image))
}

#[unsafe(no_mangle)]
pub extern "C" fn leskofar_narrow(
    book: &[u8],
    scratch: &mut [u8],
    image: &[u8],
    narrow: &mut [u8],
) -> u32
    ensures answer { result ≡ refusal_of (narrowed_on_image book.now scratch.old image.now narrow.old).answer }
    ensures image { narrow.new ≡ (narrowed_on_image book.now scratch.old image.now narrow.old).image }
    ensures scratch { scratch.new ≡ (narrowed_on_image book.now scratch.old image.now narrow.old).scratch }
{
    refusal(narrow_image(book, scratch, image, narrow))
}
