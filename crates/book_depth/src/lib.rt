#![tactic(auto)]
// Refusal 6: no node is deeper than the limit.
ghost use Rattle.std.specs.Prelude.{◌≡◌, ◌+◌, replicate};
ghost use Rattle.book.specs.Book.{contexts};
ghost use Rattle.book.specs.Laid.{Laid};
ghost use Rattle.book_depth.specs.Depth.{shallow};
ghost use Rattle.book_depth.specs.Rooted.{Rooted};

use book::format::*;
use book::{count, field};

// The limit, as the table holds depths.
const DEEPEST: u16 = DEPTH_MOST as u16;

// The root, and as many nodes as there can be contexts.
const NODES: usize = CONTEXTS_MOST + 1;

fn no_depths() -> [u16; NODES]
    ensures { result ≡ replicate (contexts.most + 1) 0 }
{
    [0u16; NODES]
}

// A parent is smaller than its node, so its depth is known when the node is reached: one step for each node.
pub fn shallow(book: &[u8]) -> bool
    requires { Laid book.now contexts × Rooted book.now }
    ensures { result ≡ shallow book.now }
{
    let mut depths = no_depths();
    for i in 0..count(book, CONTEXTS) {
        let parent = field(book, CONTEXTS, i, CONTEXT_PARENT);
        let depth = depths[parent];
        if DEEPEST <= depth {
            return false;
        }
        depths[i + 1] = depth + 1;
    }
    true
}
