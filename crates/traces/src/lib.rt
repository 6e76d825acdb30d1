#![tactic(auto)]
// RSolver.dfy: PrintTrace, and the call that prints a node's trace.
ghost use Rattle.std.specs.Prelude.{◌≡◌, length};
ghost use Rattle.basics.specs.Write.{Wrote};
ghost use Rattle.book.specs.Program.{node_at};
ghost use Rattle.book.specs.Decode.{program};
ghost use Rattle.book_test.specs.Promise.{Promise};
ghost use Rattle.contexts.specs.Path.{IsNode, IsBelow};
ghost use Rattle.rsolver.specs.Trace.{trace_line, print_trace, trace_call};
ghost use Rattle.solver_expr.specs.Print.{printed_value, Answered};
ghost use Rattle.traces.specs.Call.{trace_in};

use book::Refusal;
use book::format::{CONTEXT_TRACE, CONTEXTS};
use book_test::book_test;
use solver_expr::fitted;

// The field of a node without trace; that of another is its name's number and one.
const NO_TRACE: usize = 0;

// The spaces before a trace, and what ends its line.
const INDENT: usize = 2;

const NEWLINE: u8 = b'\n';

// Writes a node's own line, if it has a trace.
fn trace_line(book: &[u8], node: usize, out: &mut [u8]) -> usize
    requires { IsBelow book.now node }
    ensures { Wrote (trace_line (node_at (program book.now) node).trace_string) out.old out.new result }
{
    let trace = book::field(book, CONTEXTS, node - 1, CONTEXT_TRACE);
    if trace == NO_TRACE {
        return 0;
    }
    let indented = basics::spaces(INDENT, out);
    let k = basics::clip(indented, out.len());
    let name = basics::put_all(book::name(book, trace - 1), &mut out[k..]);
    let named = basics::sum(indented, name);
    let k2 = basics::clip(named, out.len());
    let end = basics::put(NEWLINE, &mut out[k2..]);
    basics::sum(named, end)
}

// Writes the traces of a node's path, from the root down.
fn print_trace(book: &[u8], node: usize, out: &mut [u8]) -> usize
    requires { IsNode book.now node }
    ensures { Wrote (print_trace (program book.now) node) out.old out.new result }
{
    let path = contexts::path_of(book, node);
    let mut written = 0;
    for below in path.as_slice().iter().rev() {
        let k = basics::clip(written, out.len());
        let line = trace_line(book, *below as usize, &mut out[k..]);
        written = basics::sum(written, line);
    }
    written
}

// The call in a book that passed its test.
fn trace_in(book: &[u8], node: usize, text: &mut [u8]) -> Result<usize, Refusal>
    requires { Promise book.now }
    ensures { Answered (trace_in book.now node (length text.old)) result text.old text.new }
{
    if book::count(book, CONTEXTS) < node {
        return Err(Refusal::NotInBook);
    }
    fitted(|out| print_trace(book, node, out), text)
}

// Any book, scratch, node and text buffer are taken.
pub fn trace(
    book: &[u8],
    scratch: &mut [u8],
    node: usize,
    text: &mut [u8],
) -> Result<usize, Refusal>
    ensures { (printed_value result ≡ (trace_call book.now scratch.old node text.old).answer) × (text.new ≡ (trace_call book.now scratch.old node text.old).text) × (scratch.new ≡ (trace_call book.now scratch.old node text.old).scratch) }
{
    book_test(book, scratch)?;
    trace_in(book, node, text)
}
