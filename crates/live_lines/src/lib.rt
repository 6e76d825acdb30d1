#![tactic(auto)]
// The live lines of a script, in place: where each of them starts, in an array with a count.
ghost use Rattle.std.specs.Prelude.{◌≡◌, true, ◌+◌, ◌<◌, length, set, IfSome};
ghost use Rattle.command_lines.specs.Lines.{line_at};
ghost use Rattle.command_lines.specs.CommandLines.{is_command};
ghost use Rattle.live_lines.specs.LiveLines.{script_most, places, push_place, Heard};

use command_lines::{LineKind, PUSH, is_line, line_at, line_kind};

// The longest script.
pub const SCRIPT_MOST: usize = 65536;

// As many live lines as a script can have, each of nine bytes or more with its end, and one.
pub const PLACES: usize = 7282;

// Lines of a text, by their places.
#[derive(Clone, Copy)]
pub struct Lines<'a> {
    pub text: &'a [u8],
    pub starts: &'a [u16],
}

// No line lives yet. Written in place, the zeros would stand one by one in every proof.
pub fn no_starts() -> [u16; PLACES]
    ensures { length result ≡ places }
{
    [0; PLACES]
}

// One more live line, behind the first n: a push, or one that joins.
pub fn join_line(starts: &mut [u16], n: usize, at: usize) -> usize
    requires { (n < length starts.old) × (at < script_most) }
    ensures { (result ≡ n + 1) × (starts.new ≡ set starts.old n at) }
{
    starts[n] = at as u16;
    n + 1
}

// Which of the lines is the last push.
pub fn last_push(lines: Lines) -> Option<usize>
    ensures place { result ≡ push_place lines.entry.text.now lines.entry.starts.now (length lines.entry.starts.now) }
    ensures within { IfSome result (λ k. k < length lines.entry.starts.now) }
{
    for k in (0..lines.starts.len()).rev() {
        if is_line(lines.text, usize::from(lines.starts[k]), PUSH) {
            return Some(k);
        }
    }
    None
}

// The command at a place is heard, behind the first n live lines: a push or a line that joins is one more, and a pop leads back to the last
// push, and over it. The starts are a slice of any length, which the caller counts: an ArrayVec would ask for one capacity.
pub fn hear_line(script: &[u8], at: usize, starts: &mut [u16], n: usize) -> usize
    requires { (is_command (line_at script.now at) ≡ true) × (n < length starts.old) × (at < script_most) }
    ensures { Heard script.now at starts.old starts.new n result }
{
    match line_kind(line_at(script, at)) {
        LineKind::Push | LineKind::Joins => join_line(starts, n, at),
        LineKind::Pop => {
            let lines = Lines {
                text: script,
                starts: &starts[..n],
            };
            last_push(lines).unwrap_or(0)
        }
        LineKind::CheckSat | LineKind::GetModel | LineKind::Foreign => n,
    }
}
