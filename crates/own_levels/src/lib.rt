#![tactic(auto)]
// Our own text of a question, from the root, and whether the live lines of a script leave its levels.
ghost use Rattle.std.specs.Prelude.{◌≡◌, length};
ghost use Rattle.smt_engines.specs.Reader.{Stack, live, read};
ghost use Rattle.solvers.specs.declared.Owed.TheVariants.{Reply};
ghost use Rattle.solvers.specs.Rule.{present, must_live};
ghost use Rattle.live_lines.specs.LiveLines.{script_most, places};
ghost use Rattle.level_lines.specs.AsOften.{same_levels};
ghost use Rattle.level_lines.specs.LevelLines.{stack_of};
ghost use Rattle.own_levels.specs.OwnLevels.{Compared, OwnText, Started};

use command_lines::line_at;
use engine::{ROOT, question};
use level_lines::same_levels;
use live_lines::{Lines, SCRIPT_MOST, join_line, no_starts};
use question_lists::Question;
use session_levels::blank;

// `(check-sat)` and its end.
const CHECK_SAT: usize = 12;

// Written in place, the zeros would stand one by one in every proof.
fn blank_text() -> [u8; SCRIPT_MOST]
    ensures { length result ≡ script_most }
{
    [0; SCRIPT_MOST]
}

// Where each line of our text starts.
fn own_starts(own: &[u8], starts: &mut [u16]) -> usize
    requires { OwnText own.now × (length starts.old ≡ places) }
    ensures { Started own.now starts.new result }
{
    let mut n = 0;
    let mut at = 0;
    while at < own.len() {
        n = join_line(starts, n, at);
        at += line_at(own, at).len() + 1;
    }
    n
}

// The live lines leave the levels of our text.
fn same_text(lines: Lines, own: &[u8]) -> bool
    requires { OwnText own.now }
    ensures { (su : Stack) → read own.now ≡ live su → result ≡ same_levels (stack_of lines.entry.text.now lines.entry.starts.now (length lines.entry.starts.now)) su }
{
    let mut starts = no_starts();
    let n = own_starts(own, &mut starts);
    let ours = Lines {
        text: own,
        starts: &starts[..n],
    };
    same_levels(lines, ours)
}

// The live lines before the check-sat at `at` leave the levels of the question. Live lines are lines of the script: a text that is longer
// than the script up to there has other levels, and is not looked at.
pub fn is_question(book: &[u8], asked: Question, lines: Lines, at: usize) -> bool
    requires { Compared book.now asked.node asked.goal lines.text.now at lines.starts.now (length lines.starts.now) }
    ensures { result ≡ same_levels (stack_of lines.entry.text.now lines.entry.starts.now (length lines.entry.starts.now)) (must_live book.now (present asked.node asked.goal Reply)) }
{
    let mut levels = blank();
    let mut own = blank_text();
    let done = question(book, ROOT, asked.node, asked.goal, &mut levels, &mut own);
    let end = done.at;
    if at + CHECK_SAT < end {
        return false;
    }
    let before = end - CHECK_SAT;
    same_text(lines, &own[..before])
}
