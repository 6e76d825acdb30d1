// Prove of RSolver.dfy and Solvers.dfy, up to the check.
ghost use Rattle.engine.specs.Engine.{Asking, Asked, Questioning, Questioned};

use super::context::{depth_of, set_context};
use levels::{Progress, declared_count};
use session_levels::{Level, copy};
use smt_engines::{assume_not, check_sat, push};
use walk::declare_new_symbols;

// Behind SetContext. `level` is one more than the node's depth. What the goal declares stays in `levels`, which the caller drops.
fn ask_goal(
    book: &[u8],
    node: usize,
    goal: usize,
    level: Level,
    levels: &mut [Level],
    so: Progress,
    out: &mut [u8],
) -> Progress
    requires { Asking book.now node goal level levels.old so }
    ensures { Asked book.now node goal so out.old out.new result }
{
    let start = Progress {
        at: push(so.at, out),
        ..so
    };
    let done = declare_new_symbols(book, goal, level, levels, start, out);
    let tag = declared_count(levels);
    let denied = push(done.at, out);
    let asserted = assume_not(book, goal, tag, denied, out);
    let at = check_sat(asserted, out);
    Progress { at, ..done }
}

// A move from node `old`, where the levels are, to node `new`, and the question there. The levels are then those of the node: what the goal declares is not kept.
pub fn question(
    book: &[u8],
    old: usize,
    new: usize,
    goal: usize,
    levels: &mut [Level],
    out: &mut [u8],
) -> Progress
    requires { Questioning book.now old new goal levels.old }
    ensures { Questioned book.now old new goal levels.new out.old out.new result }
{
    let moved = set_context(book, old, new, levels, out);
    let level = depth_of(book, new) + 1;
    let mut inner = copy(levels);
    ask_goal(book, new, goal, level as Level, &mut inner, moved, out)
}
