// The call that stands at a place of the input.
ghost use Rattle.std.specs.Prelude.{◌≡◌, ◌+◌, ◌≤◌, length, drop};
ghost use Rattle.book.specs.Book.{word};
ghost use Rattle.script_text.specs.Script.{shape};
ghost use Rattle.script_text.specs.Turned.{wants};

use super::opening::NUMBER;
use book::word;

// Bytes of a call: kind, node, term.
pub const CALL: usize = 3 * NUMBER;

// The kinds of a call, and the term that a move carries.
const MOVE: u32 = 1;

const ASK: u32 = 2;

const NO_TERM: u32 = 0;

// A call; `Stop` for what is none, or cut short.
#[derive(Clone, Copy)]
pub enum Call {
    Move { node: u32 },
    Ask { node: u32, term: u32 },
    Stop,
}

fn number(calls: &[u8], at: usize) -> u32
    requires { at + 4 ≤ length calls.now }
    ensures { result ≡ word calls.now at }
{
    word(calls, at) as u32
}

pub fn read_call(calls: &[u8], at: usize) -> Call
    requires { at ≤ length calls.now }
    ensures { shape (drop at calls.now) ≡ wants result }
{
    if calls.len() - at < CALL {
        return Call::Stop;
    }
    let kind = number(calls, at);
    let node = number(calls, at + NUMBER);
    let term = number(calls, at + 2 * NUMBER);
    match kind {
        ASK => Call::Ask { node, term },
        MOVE if term == NO_TERM => Call::Move { node },
        _ => Call::Stop,
    }
}
