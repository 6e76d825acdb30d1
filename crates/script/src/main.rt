#![tactic(auto)]
// Reads a book and calls from standard input, and prints what a session sends for them.
// Its output is `script_output` of crate script_text; docs/SCRIPT.md says what is proved of that and what is only tested.
// An `Err` is a read or a write of a standard stream that failed, and nothing else. The buffers hold anything then, as they do after an `Ok`.
ghost use Rattle.std.specs.Prelude.{◌≡◌, ◌<◌, ◌≤◌, length, take, drop, IfOk};
ghost use Rattle.std.specs.Io.KnownBytes.{Consumes, IsAtEnd};
ghost use Rattle.basics.specs.Buffer.{scratch_least};
ghost use Rattle.script_text.specs.Script.{text_size, shape, turn, last_session, run};
ghost use Rattle.script_text.specs.Turned.{Desk, next_place};
ghost use Rattle.solvers.specs.Session.{fresh_session};

use script_text::{CALL, INPUT_MOST, NUMBER, STOPPED, Turn, call_turn, calls_start, is_cut};
use solvers::Session;
use std::io;
use std::io::Read;

// One byte more than the longest input, so that a longer one shows.
const INPUT_ROOM: usize = INPUT_MOST + 1;

// The least scratch that a call takes.
const SCRATCH: usize = basics::SCRATCH_LEAST;

// The longest text of a call.
const TEXT: usize = 65_536;

fn input_buffer() -> [u8; INPUT_ROOM] {
    [0; INPUT_ROOM]
}

fn scratch_buffer() -> [u8; SCRATCH]
    ensures { length result ≡ scratch_least }
{
    [0; SCRATCH]
}

fn text_buffer() -> [u8; TEXT]
    ensures { length result ≡ text_size }
{
    [0; TEXT]
}

// Reads until the buffer is full or the input ends, and returns how many bytes it put at the start of the buffer.
fn read_full<R: Read>(from: &mut R, buffer: &mut [u8]) -> io::Result<usize>
    ensures in_bounds { IfOk result (λ n. n ≤ length buffer.new) }
    ensures bytes { IfOk result (λ n. Consumes (R.remaining from.old) (R.remaining from.new) (take n buffer.new)) }
    ensures end { IfOk result (λ n. n < length buffer.new → IsAtEnd (R.remaining from.new)) }
{
    let mut done = 0;
    while done < buffer.len() {
        let n = from.read(&mut buffer[done..])?;
        if n == 0 {
            break;
        }
        done += n;
    }
    Ok(done)
}

// Prints what the turn shows, and returns the place of the next call.
fn print_texts(
    rt: &impl Print,
    turn: Turn,
    calls: &[u8],
    at: usize,
    text: &mut [u8],
    closing: &mut [u8],
) -> io::Result<usize>
    requires { (at < length calls.now) × (turn.written ≤ length text.old) × (turn.closed ≤ length closing.old) }
    ensures ok { IfOk result (λ next. next ≡ next_place turn.more at (length calls.now)) }
    ensures kept { (text.new ≡ text.old) × (closing.new ≡ closing.old) }
{
    let written = turn.written;
    rt.write_all(&text[..written])?;
    let closed = turn.closed;
    rt.write_all(&closing[..closed])?;
    if turn.more {
        return Ok(at + CALL);
    }
    Ok(calls.len())
}

// One call, printed: what is left to run from the next place ends in the same session. The session is the one after the turn, also
// where printing fails.
fn print_turn(
    rt: &impl Print,
    s: &mut Session,
    book: &[u8],
    calls: &[u8],
    at: usize,
    scratch: &mut [u8],
    text: &mut [u8],
    closing: &mut [u8],
) -> io::Result<usize>
    requires { (at < length calls.now) × Desk scratch.old text.old × (length closing.old ≡ text_size) }
    ensures ok { IfOk result (λ next. ((run book.now (drop next calls.now) s.new).session ≡ (run book.now (drop at calls.now) s.old).session) × (at < next)) }
    ensures session { s.new ≡ (turn book.now s.old (shape (drop at calls.now))).session }
{
    let turn = call_turn(s, book, calls, at, scratch, text, closing);
    print_texts(rt, turn, calls, at, text, closing)
}

// The calls one by one, each printed before the next is read: the session is lent to each of them. Returns the last session.
fn run_calls(
    rt: &impl Print,
    book: &[u8],
    calls: &[u8],
    scratch: &mut [u8],
    text: &mut [u8],
    closing: &mut [u8],
) -> io::Result<Session>
    requires { Desk scratch.old text.old × (length closing.old ≡ text_size) }
    ensures { IfOk result (λ last. last ≡ (run book.now calls.now fresh_session).session) }
{
    let mut session = Session::fresh();
    let mut at = 0;
    while at < calls.len() {
        at = print_turn(rt, &mut session, book, calls, at, scratch, text, closing)?;
    }
    Ok(session)
}

// The whole input. Returns the last session.
fn print_script(
    rt: &impl Print,
    input: &[u8],
    scratch: &mut [u8],
    text: &mut [u8],
    closing: &mut [u8],
) -> io::Result<Session>
    requires { Desk scratch.old text.old × (length closing.old ≡ text_size) }
    ensures { IfOk result (λ last. last ≡ last_session input.now) }
{
    if is_cut(input) {
        let line = STOPPED;
        rt.write_all(&line)?;
        return Ok(Session::fresh());
    }
    let at = calls_start(input);
    run_calls(rt, &input[NUMBER..at], &input[at..], scratch, text, closing)
}

fn main(rt: HostRuntime) -> io::Result<()> {
    let mut input = input_buffer();
    let length = read_full(&mut rt.stdin(), &mut input)?;
    let mut scratch = scratch_buffer();
    let mut text = text_buffer();
    let mut closing = text_buffer();
    print_script(&rt, &input[..length], &mut scratch, &mut text, &mut closing)?;
    Ok(())
}
