// SetContext.
ghost use Rattle.std.specs.Prelude.{◌≡◌, replicate};
ghost use Rattle.basics.specs.Write.{WroteAt};
ghost use Rattle.book.specs.Program.{depth};
ghost use Rattle.book.specs.Decode.{program};
ghost use Rattle.contexts.specs.Path.{IsNode};
ghost use Rattle.smt_engines.specs.Command.{Pop, script};
ghost use Rattle.engine.specs.Engine.{Standing, Reached};

use super::enter::descend;
use contexts::{path_of, pops};
use levels::Progress;
use session_levels::{Level, clear_above};
use smt_engines::pop;

pub fn depth_of(book: &[u8], node: usize) -> usize
    requires { IsNode book.now node }
    ensures { result ≡ depth (program book.now) node }
{
    path_of(book, node).len()
}

fn pop_times(count: usize, out: &mut [u8]) -> usize
    ensures { WroteAt (script (replicate count Pop)) 0 out.old out.new result }
{
    let mut at = 0;
    for _ in 0..count {
        at = pop(at, out);
    }
    at
}

// From node `old`, where the levels are, to node `new`.
pub fn set_context(
    book: &[u8],
    old: usize,
    new: usize,
    levels: &mut [Level],
    out: &mut [u8],
) -> Progress
    requires { Standing book.now old new levels.old }
    ensures { Reached book.now old new levels.new out.old out.new result }
{
    let count = pops(book, old, new);
    let shared = depth_of(book, old) - count;
    let below = depth_of(book, new) - shared;
    clear_above(levels, shared);
    let so = Progress {
        at: pop_times(count, out),
        missing: false,
    };
    descend(book, new, below, levels, so, out)
}
