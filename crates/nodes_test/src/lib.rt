#![tactic(auto)]
// The test of a list of nodes before the shift: could a fresh session move to each of them? Nothing is sent, and nothing stored.
ghost use Rattle.std.specs.Prelude.{◌≡◌, Option, Ok};
ghost use Rattle.book.specs.Decode.{program};
ghost use Rattle.book_test.specs.BookTest.{book_test_call};
ghost use Rattle.book_test.specs.Promise.{Promise};
ghost use Rattle.number_lists.specs.Numbers.{numbers};
ghost use Rattle.nodes_test.specs.NodesTest.{first_failing, all_inside, nodes_in, position_value, nodes_tested_value, nodes_test_call};
ghost use Rattle.nodes_test.specs.Listed.{Listed};

use book::format::CONTEXTS;
use book::{Refusal, count};
use book_test::book_test;
use engine::{ROOT, set_context};
use number_lists::{number_at, number_count};
use session_levels::blank;

// The most nodes that a list may have.
const NODES_MOST: usize = 512;

// Each of the numbers is at most `last`.
fn all_inside(book: &[u8], nodes: &[u8]) -> bool
    requires { Promise book.now }
    ensures { result ≡ all_inside book.now (numbers nodes.now) }
{
    let last = count(book, CONTEXTS);
    (0..number_count(nodes)).all(|i| number_at(nodes, i) <= last)
}

// The first position that fails, counted from 0; none where each node passes. One session is moved through the list: as long as no node
// fails, its levels are those of a fresh one that is moved to the present node.
fn first_failing(book: &[u8], nodes: &[u8]) -> Option<usize>
    requires { Listed book.now (numbers nodes.now) }
    ensures { position_value result ≡ first_failing (program book.now) (numbers nodes.now) }
{
    let mut levels = blank();
    let mut at = ROOT;
    for i in 0..number_count(nodes) {
        let node = number_at(nodes, i);
        let mut nowhere = [0; 0];
        let done = set_context(book, at, node, &mut levels, &mut nowhere);
        if done.missing {
            return Some(i);
        }
        at = node;
    }
    None
}

// In a book that passed its test.
fn test_in(book: &[u8], nodes: &[u8]) -> Result<Option<usize>, Refusal>
    requires { Promise book.now }
    ensures { nodes_tested_value result ≡ nodes_in book.now (numbers nodes.now) }
{
    if NODES_MOST < number_count(nodes) {
        return Err(Refusal::CountOverLimit);
    }
    if !all_inside(book, nodes) {
        return Err(Refusal::NotInBook);
    }
    Ok(first_failing(book, nodes))
}

// The first position that fails, counted from 0; none where each node passes. Any book, scratch and list of nodes are taken. The list is
// bytes, four for a number.
pub fn nodes_test(book: &[u8], scratch: &mut [u8], nodes: &[u8]) -> Result<Option<usize>, Refusal>
    ensures { (nodes_tested_value result ≡ (nodes_test_call book.now scratch.old nodes.now).answer) × (scratch.new ≡ (nodes_test_call book.now scratch.old nodes.now).scratch) }
{
    book_test(book, scratch)?;
    test_in(book, nodes)
}
