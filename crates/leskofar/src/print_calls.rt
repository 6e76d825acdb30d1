// The calls print, trace, listing and operator.
ghost use Rattle.std.specs.Prelude.{◌≡◌};
ghost use Rattle.rsolver.specs.Trace.{trace_call};
ghost use Rattle.rsolver.specs.Listing.{listing_call};
ghost use Rattle.solver_expr.specs.Print.{printed_value, print_call, operator_call};
ghost use Rattle.printing.specs.Calls.{layout_of};
ghost use Rattle.leskofar.specs.Exports.{told, flag};

use super::ACCEPTED;
use book::Refusal;
use listing::listing;
use printing::{operator, print};
use refusal_numbers::number;
use traces::trace;

// The answer of a printing call: the refusal's number and 0, or 0 and the text's length.
#[repr(C)]
#[derive(Clone, Copy)]
pub struct Told {
    pub refusal: u32,
    pub length: u64,
}

fn tell(printed: Result<usize, Refusal>) -> Told
    ensures { result ≡ told (printed_value printed) }
{
    match printed {
        Ok(n) => Told {
            refusal: ACCEPTED,
            length: n as u64,
        },
        Err(r) => Told {
            refusal: number(r),
            length: 0,
        },
    }
}

#[unsafe(no_mangle)]
pub extern "C" fn leskofar_print(
    book: &[u8],
    scratch: &mut [u8],
    term: u32,
    tag: u64,
    newlines: u32,
    indent: u64,
    text: &mut [u8],
) -> Told
    ensures answer { result ≡ told (print_call book.now scratch.old term tag (layout_of (flag newlines) indent) text.old).answer }
    ensures text { text.new ≡ (print_call book.now scratch.old term tag (layout_of (flag newlines) indent) text.old).text }
    ensures scratch { scratch.new ≡ (print_call book.now scratch.old term tag (layout_of (flag newlines) indent) text.old).scratch }
{
    tell(print(
        book,
        scratch,
        term as usize,
        tag,
        newlines != 0,
        indent,
        text,
    ))
}

#[unsafe(no_mangle)]
pub extern "C" fn leskofar_trace(
    book: &[u8],
    scratch: &mut [u8],
    node: u32,
    text: &mut [u8],
) -> Told
    ensures answer { result ≡ told (trace_call book.now scratch.old node text.old).answer }
    ensures text { text.new ≡ (trace_call book.now scratch.old node text.old).text }
    ensures scratch { scratch.new ≡ (trace_call book.now scratch.old node text.old).scratch }
{
    tell(trace(book, scratch, node as usize, text))
}

#[unsafe(no_mangle)]
pub extern "C" fn leskofar_listing(
    book: &[u8],
    scratch: &mut [u8],
    node: u32,
    goal: u32,
    text: &mut [u8],
) -> Told
    ensures answer { result ≡ told (listing_call book.now scratch.old node goal text.old).answer }
    ensures text { text.new ≡ (listing_call book.now scratch.old node goal text.old).text }
    ensures scratch { scratch.new ≡ (listing_call book.now scratch.old node goal text.old).scratch }
{
    tell(listing(book, scratch, node as usize, goal as usize, text))
}

#[unsafe(no_mangle)]
pub extern "C" fn leskofar_operator(code: u32, text: &mut [u8]) -> Told
    ensures answer { result ≡ told (operator_call code text.old).answer }
    ensures text { text.new ≡ (operator_call code text.old).text }
{
    tell(operator(code as usize, text))
}
