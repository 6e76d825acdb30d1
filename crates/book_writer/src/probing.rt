// RSolver.dfy: Record and RecordTracePoint.
ghost use Rattle.std.specs.Prelude.{◌≤◌, length};
ghost use Rattle.book.specs.Book.{contexts, size};
ghost use Rattle.name_search.specs.Names.{maybe};
ghost use Rattle.name_search.specs.Probe.{probe_most};
ghost use Rattle.new_records.specs.NewNames.{maybe_text};
ghost use Rattle.book_writer.specs.Growths.{record_term, record_trace_point};
ghost use Rattle.book_writer.specs.Writing.{lent, grow_call, Returned};
ghost use Rattle.book_writer.specs.Coded.{Ready, probe_below, probe_by, Appends};

use super::Appended;
use super::appending::{append, inside};
use super::extending::next_node;
use super::probe_rows::probe_rows;
use book::format::{CONTEXTS, LETTERS};
use book::{Refusal, count};
use book_growth::{Additions, NOTHING};
use book_test::book_test;
use contexts::path_of;
use name_search::probe_name;
use new_records::{Before, EQUALS, name_parts, probe_names};

// The type of a trace point's constant.
const BOOL: u32 = 0;

// With the probe's name.
fn record_as(
    book: &[u8],
    scratch: &mut [u8],
    probe: &[u8],
    parent: u32,
    term: Option<u32>,
    typ: u32,
    trace: Option<&[u8]>,
    out: &mut [u8],
) -> Result<Appended, Refusal>
    requires { Ready book.now scratch.old × (length probe.now ≤ probe_most) }
    ensures { Appends (probe_by book.now probe.now parent (maybe term) typ (maybe_text trace.entry) (length out.old)) result out.old out.new scratch.old scratch.new }
{
    let names = probe_names(book, probe, trace);
    let before = Before {
        probe: names.probe.new.then_some(probe),
        equals: names.equals.new.then_some(EQUALS),
    };
    let new = names.trace.new.then_some(trace).flatten();
    let parts = name_parts(count(book, LETTERS), &before, new);
    let rows = probe_rows(book, &names, parent, typ, term);
    let more = Additions {
        letters: parts.letters.as_slice(),
        text: new.unwrap_or(b""),
        names: parts.rows.as_slice(),
        constants: &rows.constant,
        terms: rows.terms.as_slice(),
        contexts: &rows.node,
        first: &rows.entries,
        ..NOTHING
    };
    append(book, scratch, &more, true, next_node(book), out)
}

// Below a node of the book. Without a term it is a trace point.
fn record_below(
    book: &[u8],
    scratch: &mut [u8],
    parent: u32,
    term: Option<u32>,
    typ: u32,
    trace: Option<&[u8]>,
    out: &mut [u8],
) -> Result<Appended, Refusal>
    requires { Ready book.now scratch.old × (parent ≤ size book.now contexts) }
    ensures { Appends (probe_below book.now parent (maybe term) typ (maybe_text trace.entry) (length out.old)) result out.old out.new scratch.old scratch.new }
{
    let depth = path_of(book, parent as usize).len();
    let probe = probe_name(depth);
    record_as(
        book,
        scratch,
        probe.as_slice(),
        parent,
        term,
        typ,
        trace,
        out,
    )
}

// Any book, scratch, numbers, trace and buffer are taken.
pub fn record(
    book: &[u8],
    scratch: &mut [u8],
    parent: u32,
    term: u32,
    typ: u32,
    trace: Option<&[u8]>,
    out: &mut [u8],
) -> Result<Appended, Refusal>
    ensures { Returned (grow_call book.now (lent (record_term parent term typ (maybe_text trace.entry)) scratch.old out.old)) result out.new scratch.new }
{
    book_test(book, scratch)?;
    inside(book, parent, term)?;
    record_below(book, scratch, parent, Some(term), typ, trace, out)
}

// Any book, scratch, number, trace and buffer are taken.
pub fn record_trace_point(
    book: &[u8],
    scratch: &mut [u8],
    parent: u32,
    trace: &[u8],
    out: &mut [u8],
) -> Result<Appended, Refusal>
    ensures { Returned (grow_call book.now (lent (record_trace_point parent trace.now) scratch.old out.old)) result out.new scratch.new }
{
    book_test(book, scratch)?;
    if count(book, CONTEXTS) < parent as usize {
        return Err(Refusal::NotInBook);
    }
    record_below(book, scratch, parent, None, BOOL, Some(trace), out)
}
