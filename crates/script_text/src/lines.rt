// The program's own lines, and what is told of an answer.
ghost use Rattle.std.specs.Prelude.{◌≡◌, ◌≤◌, length};
ghost use Rattle.book.specs.Refusal.{number};
ghost use Rattle.solvers.specs.Left.{answer_value};
ghost use Rattle.script_text.specs.Script.{text_size, stopped, refused_line};
ghost use Rattle.script_text.specs.Turned.{Shows, Tells, length_told};

use basics::{clip, put, put_all, put_u64, sum};
use book::Refusal;
use refusal_numbers::number;
use solvers::Answer;

pub const STOPPED: [u8; 10] = *b"; stopped\n";

const NEWLINE: u8 = b'\n';

pub fn put_stopped(text: &mut [u8]) -> usize
    requires { length text.old ≡ text_size }
    ensures { Shows stopped result text.new }
{
    let line = STOPPED;
    put_all(&line, text)
}

pub fn put_refused(why: Refusal, text: &mut [u8]) -> usize
    requires { length text.old ≡ text_size }
    ensures { Shows (refused_line (number why)) result text.new }
{
    let word = put_all(b"; refused ", text);
    let k = clip(word, text.len());
    let digits = put_u64(number(why) as u64, &mut text[k..]);
    let numbered = sum(word, digits);
    let k2 = clip(numbered, text.len());
    let end = put(NEWLINE, &mut text[k2..]);
    sum(numbered, end)
}

// How long an accepted call's text is.
fn text_length(answer: Answer) -> usize
    ensures { result ≡ length_told answer }
{
    match answer {
        Answer::Written(n) => n,
        Answer::Proved(n) => n,
        Answer::Unproved(n, _) => n,
    }
}

// Writes the line of a refusal; the text of an accepted call stands in the buffer already.
pub fn tell(answer: Result<Answer, Refusal>, text: &mut [u8]) -> usize
    requires { length text.old ≡ text_size }
    ensures { Tells (answer_value answer) result text.old text.new }
{
    match answer {
        Ok(accepted) => text_length(accepted),
        Err(why) => put_refused(why, text),
    }
}
