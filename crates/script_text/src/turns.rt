// One call of the input, whole, on the program's session: the session is lent to the call, and unsat is replied to an accepted ask.
ghost use Rattle.std.specs.Prelude.{◌≡◌, [], ◌≤◌, length, drop};
ghost use Rattle.script_text.specs.Script.{text_size, moving, asking, shape, turn};
ghost use Rattle.script_text.specs.Turned.{Desk, Turned, Closes};

use super::answers::Turn;
use super::lines::{put_stopped, tell};
use super::reading::{Call, read_call};
use lent_sessions::{ask_mut, move_mut, reply_mut};
use solvers::Session;

// What is replied to an accepted ask.
const UNSAT: [u8; 5] = *b"unsat";

fn move_turn(s: &mut Session, book: &[u8], scratch: &mut [u8], node: u32, text: &mut [u8]) -> Turn
    requires { Desk scratch.old text.old }
    ensures { Turned (turn book.now s.old (moving node)) result s.new text.new [] }
{
    let answer = move_mut(s, book, scratch, node, text);
    Turn::alone(tell(answer, text))
}

// The reply to an ask that has written so many bytes.
fn reply_turn(
    s: &mut Session,
    book: &[u8],
    scratch: &mut [u8],
    written: usize,
    closing: &mut [u8],
) -> Turn
    requires { Desk scratch.old closing.old }
    ensures { Closes book.now s.old written result s.new closing.new }
{
    let word = UNSAT;
    let answer = reply_mut(s, book, scratch, Ok(&word), closing, &mut []);
    let closed = tell(answer, closing);
    Turn {
        written,
        closed,
        more: true,
    }
}

fn ask_turn(
    s: &mut Session,
    book: &[u8],
    scratch: &mut [u8],
    node: u32,
    term: u32,
    text: &mut [u8],
    closing: &mut [u8],
) -> Turn
    requires { Desk scratch.old text.old × (length closing.old ≡ text_size) }
    ensures { Turned (turn book.now s.old (asking node term)) result s.new text.new closing.new }
{
    let answer = ask_mut(s, book, scratch, node, term, text);
    let written = tell(answer, text);
    match answer {
        Ok(_) => reply_turn(s, book, scratch, written, closing),
        Err(_) => Turn::alone(written),
    }
}

// The call that stands at `at`.
pub fn call_turn(
    s: &mut Session,
    book: &[u8],
    calls: &[u8],
    at: usize,
    scratch: &mut [u8],
    text: &mut [u8],
    closing: &mut [u8],
) -> Turn
    requires { (at ≤ length calls.now) × Desk scratch.old text.old × (length closing.old ≡ text_size) }
    ensures { Turned (turn book.now s.old (shape (drop at calls.now))) result s.new text.new closing.new }
{
    match read_call(calls, at) {
        Call::Move { node } => move_turn(s, book, scratch, node, text),
        Call::Ask { node, term } => ask_turn(s, book, scratch, node, term, text, closing),
        Call::Stop => Turn {
            written: put_stopped(text),
            closed: 0,
            more: false,
        },
    }
}
