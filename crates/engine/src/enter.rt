// The last statements of AdjustContext, and the nodes of a path one by one.
ghost use Rattle.engine.specs.Engine.{Above, Entered, Downward, Descended};

use book::field;
use book::format::{CONTEXT_TERM, CONTEXTS};
use contexts::path_of;
use levels::{Progress, declared_count};
use session_levels::Level;
use smt_engines::{assume, push};
use walk::declare_new_symbols;

// A push, the node's symbols and its assertion. `level` is the node's depth.
fn enter(
    book: &[u8],
    node: usize,
    level: Level,
    levels: &mut [Level],
    so: Progress,
    out: &mut [u8],
) -> Progress
    requires { Above book.now node level levels.old so }
    ensures { Entered book.now node levels.new so out.old out.new result }
{
    let t = field(book, CONTEXTS, node - 1, CONTEXT_TERM);
    let start = Progress {
        at: push(so.at, out),
        ..so
    };
    let done = declare_new_symbols(book, t, level, levels, start, out);
    let tag = declared_count(levels);
    let at = assume(book, t, tag, done.at, out);
    Progress { at, ..done }
}

// Enters the last `count` nodes of a node's path, downward.
pub fn descend(
    book: &[u8],
    node: usize,
    count: usize,
    levels: &mut [Level],
    so: Progress,
    out: &mut [u8],
) -> Progress
    requires { Downward book.now node count levels.old so }
    ensures { Descended book.now node count levels.new so out.old out.new result }
{
    let path = path_of(book, node);
    let nodes = path.as_slice();
    let mut done = so;
    for k in (0..count).rev() {
        let level = (nodes.len() - k) as Level;
        done = enter(book, nodes[k] as usize, level, levels, done, out);
    }
    done
}
