#![tactic(auto)]
// RSolver.dfy: RContextNode, by its number in the book.
ghost use Rattle.std.specs.Prelude.{◌≡◌, ◌≤◌};
ghost use Rattle.contexts.specs.Path.{IsNode, IsBelow, IsParent, IsPath, IsMove, pops_of, IsApart, one_up};
ghost use Rattle.book.specs.Decode.{program};

use arrayvec::ArrayVec;
use book::format::*;

// A node's path: the node itself, its parent and so on, the root left out. No number of a node is above CONTEXTS_MOST, so that two bytes hold it.
pub type Path = ArrayVec<u16, DEPTH_MOST>;

fn parent(book: &[u8], node: usize) -> usize
    requires { IsBelow book.now node }
    ensures { IsParent book.now node result }
{
    book::field(book, CONTEXTS, node - 1, CONTEXT_PARENT)
}

pub fn path_of(book: &[u8], node: usize) -> Path
    requires { IsNode book.now node }
    ensures { IsPath book.now node result }
{
    let mut path = Path::new();
    let mut n = node;
    while 0 < n {
        path.push(n as u16);
        n = parent(book, n);
    }
    path
}

// On the way up from both nodes of a move: where each stands, and the pops so far.
#[derive(Clone, Copy)]
struct WayUp {
    old: usize,
    new: usize,
    pops: usize,
}

// One step up from the larger of two nodes. A parent is smaller than its child, so the larger is on the path of the other only if they are one.
fn step_up(book: &[u8], at: WayUp) -> WayUp
    requires { IsApart book.now at }
    ensures { result ≡ one_up (program book.now) at }
{
    if at.new < at.old {
        return WayUp {
            old: parent(book, at.old),
            pops: at.pops + 1,
            ..at
        };
    }
    WayUp {
        new: parent(book, at.new),
        ..at
    }
}

// The pops of a move: the steps from the old node up to where the two meet.
pub fn pops(book: &[u8], old: usize, new: usize) -> usize
    requires { IsMove book.now old new }
    ensures { (result ≡ pops_of (program book.now) old new) × (result ≤ old) }
{
    let mut at = WayUp { old, new, pops: 0 };
    while at.old != at.new {
        at = step_up(book, at);
    }
    at.pops
}
