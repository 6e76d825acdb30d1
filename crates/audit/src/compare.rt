// The verdict on a script, check-sat by check-sat.
ghost use Rattle.std.specs.Prelude.{◌≡◌, length};
ghost use Rattle.number_lists.specs.Numbers.{numbers};
ghost use Rattle.question_lists.specs.Questions.{questions_of};
ghost use Rattle.script_checks.specs.ScriptChecks.{checks};
ghost use Rattle.audit.specs.Audit.{agreeing, verdict, verdict_value};
ghost use Rattle.audit.specs.Comparable.{Comparable, Before, step_at};

use command_lines::{CHECK_SAT, is_line, line_at};
use live_lines::{Lines, hear_line, no_starts};
use own_levels::is_question;
use question_lists::question_at;

// The line at a place, with the live lines and k check-sats before it: so many check-sats agree behind it; none where it is one that differs.
fn take_line(book: &[u8], questions: &[u8], lines: Lines, at: usize, k: usize) -> Option<usize>
    requires { Before book.now (numbers questions.now) lines.text.now lines.starts.now (length lines.starts.now) at k }
    ensures { result ≡ step_at book.now (numbers questions.now) lines.entry.text.now lines.entry.starts.now (length lines.entry.starts.now) at k }
{
    if !is_line(lines.text, at, CHECK_SAT) {
        return Some(k);
    }
    if is_question(book, question_at(questions, k), lines, at) {
        return Some(k + 1);
    }
    None
}

// The first check-sat that differs, counted from 1; none where each agrees. Keeps the live lines, and compares them at each check-sat.
pub fn compare(book: &[u8], questions: &[u8], script: &[u8]) -> Option<usize>
    requires { Comparable book.now (numbers questions.now) script.now }
    ensures { verdict_value result ≡ verdict 1 (agreeing book.now (checks script.now) (questions_of (numbers questions.now))) }
{
    let mut starts = no_starts();
    let mut n = 0;
    let mut at = 0;
    let mut agreed = 0;
    while at < script.len() {
        let lines = Lines {
            text: script,
            starts: &starts[..n],
        };
        let Some(next) = take_line(book, questions, lines, at, agreed) else {
            return Some(agreed + 1);
        };
        n = hear_line(script, at, &mut starts, n);
        at += line_at(script, at).len() + 1;
        agreed = next;
    }
    None
}
