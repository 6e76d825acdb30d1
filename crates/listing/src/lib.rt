#![tactic(auto)]
// RSolver.dfy: RContextNode.Print and PrintProofObligation, and the call that prints what is to be proved at a node.
ghost use Rattle.std.specs.Prelude.{◌≡◌, ◌<◌};
ghost use Rattle.basics.specs.Write.{Wrote, WroteAt};
ghost use Rattle.book.specs.Book.{terms, size};
ghost use Rattle.book.specs.Program.{node_at, path};
ghost use Rattle.book.specs.Decode.{term, program};
ghost use Rattle.book_test.specs.Promise.{Promise};
ghost use Rattle.contexts.specs.Path.{IsNode, IsBelow};
ghost use Rattle.rsolver.specs.Listing.{listing_line, print_context, print_proof_obligation, listing_call};
ghost use Rattle.solver_expr.specs.Print.{printed_value};

use basics::put_at;
use book::format::{CONTEXT_TERM, CONTEXTS, TERMS};
use book::{Refusal, count, field};
use book_test::book_test;
use listing_terms::rexpr_to_string;
use solver_expr::fitted;

// A line: term t, two spaces in.
fn put_line(book: &[u8], t: usize, at: usize, out: &mut [u8]) -> usize
    requires { Promise book.now × (t < size book.now terms) }
    ensures { WroteAt (listing_line (term book.now t)) at out.old out.new result }
{
    let indented = put_at(b"  ", at, out);
    let end = rexpr_to_string(book, t, indented, out);
    put_at(b"\n", end, out)
}

// A node's own line.
fn put_premise(book: &[u8], node: usize, at: usize, out: &mut [u8]) -> usize
    requires { IsBelow book.now node }
    ensures { WroteAt (listing_line (node_at (program book.now) node).expr) at out.old out.new result }
{
    let t = field(book, CONTEXTS, node - 1, CONTEXT_TERM);
    put_line(book, t, at, out)
}

// Print: the lines of a node's path, from the root down.
fn print_context(book: &[u8], node: usize, at: usize, out: &mut [u8]) -> usize
    requires { IsNode book.now node }
    ensures { WroteAt (print_context (program book.now) (path (program book.now) node)) at out.old out.new result }
{
    let path = contexts::path_of(book, node);
    let mut done = at;
    for below in path.as_slice().iter().rev() {
        done = put_premise(book, *below as usize, done, out);
    }
    done
}

// PrintProofObligation.
pub fn print_proof_obligation(book: &[u8], node: usize, goal: usize, out: &mut [u8]) -> usize
    requires { IsNode book.now node × (goal < size book.now terms) }
    ensures { Wrote (print_proof_obligation (program book.now) node (term book.now goal)) out.old out.new result }
{
    let title = put_at(b"----- Proof obligation:\n", 0, out);
    let premises = print_context(book, node, title, out);
    let turnstile = put_at(b"  |-\n", premises, out);
    put_line(book, goal, turnstile, out)
}

// Any book, scratch, node, goal and text buffer are taken.
pub fn listing(
    book: &[u8],
    scratch: &mut [u8],
    node: usize,
    goal: usize,
    text: &mut [u8],
) -> Result<usize, Refusal>
    ensures { (printed_value result ≡ (listing_call book.now scratch.old node goal text.old).answer) × (text.new ≡ (listing_call book.now scratch.old node goal text.old).text) × (scratch.new ≡ (listing_call book.now scratch.old node goal text.old).scratch) }
{
    book_test(book, scratch)?;
    if count(book, CONTEXTS) < node {
        return Err(Refusal::NotInBook);
    }
    if count(book, TERMS) <= goal {
        return Err(Refusal::NotInBook);
    }
    fitted(|out| print_proof_obligation(book, node, goal, out), text)
}
