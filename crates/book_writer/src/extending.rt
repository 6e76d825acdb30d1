// RSolver.dfy: Extend and ExtendWithEquality.
ghost use Rattle.std.specs.Prelude.{◌≡◌, suc};
ghost use Rattle.book.specs.Book.{contexts, size};
ghost use Rattle.book_test.specs.Promise.{Promise};
ghost use Rattle.new_records.specs.NewNames.{maybe_text, new_text};
ghost use Rattle.book_writer.specs.Growths.{extend, extend_with_equality};
ghost use Rattle.book_writer.specs.Writing.{lent, grow_call, Returned};
ghost use Rattle.book_writer.specs.Coded.{IsTraced};

use super::Appended;
use super::appending::{append, inside};
use book::format::{CONTEXTS, LETTERS, LISTS, TERMS};
use book::{Refusal, count};
use book_growth::{Additions, NOTHING};
use book_test::book_test;
use new_records::{Before, EQUALS, ROW2, ROW3, equality, name_parts, named, row};

// The trace's field of a node without one; that of another is its name's number and one.
const NO_TRACE: usize = 0;

// No name is new before.
const NO_NAMES: Before = Before {
    probe: None,
    equals: None,
};

// The number of a new node.
pub fn next_node(book: &[u8]) -> u32
    requires { Promise book.now }
    ensures { result ≡ suc (size book.now contexts) }
{
    (count(book, CONTEXTS) + 1) as u32
}

// The trace's field of a node, and the trace where it is to be appended.
fn traced<'a>(book: &[u8], trace: Option<&'a [u8]>) -> (usize, Option<&'a [u8]>)
    requires { Promise book.now }
    ensures { IsTraced book.now (maybe_text trace.entry) result.0 (new_text result.1) }
{
    match trace {
        Some(trace) => {
            let name = named(book, trace, &NO_NAMES);
            (name.number + 1, name.new.then_some(trace))
        }
        None => (NO_TRACE, None),
    }
}

// Any book, scratch, numbers, trace and buffer are taken.
pub fn extend(
    book: &[u8],
    scratch: &mut [u8],
    parent: u32,
    term: u32,
    trace: Option<&[u8]>,
    out: &mut [u8],
) -> Result<Appended, Refusal>
    ensures { Returned (grow_call book.now (lent (extend parent term (maybe_text trace.entry)) scratch.old out.old)) result out.new scratch.new }
{
    book_test(book, scratch)?;
    inside(book, parent, term)?;
    let (field, new) = traced(book, trace);
    let parts = name_parts(count(book, LETTERS), &NO_NAMES, new);
    let contexts: [u8; ROW3] = row([parent as usize, term as usize, field]);
    // The borrow checker does not cover NOTHING's rows beside two that are made here.
    let more = Additions {
        letters: b"",
        text: new.unwrap_or(b""),
        names: parts.rows.as_slice(),
        constants: b"",
        terms: b"",
        contexts: &contexts,
        ..NOTHING
    };
    append(book, scratch, &more, true, next_node(book), out)
}

// Any book, scratch, numbers and buffer are taken.
pub fn extend_with_equality(
    book: &[u8],
    scratch: &mut [u8],
    parent: u32,
    constant: u32,
    term: u32,
    out: &mut [u8],
) -> Result<Appended, Refusal>
    ensures { Returned (grow_call book.now (lent (extend_with_equality parent constant term) scratch.old out.old)) result out.new scratch.new }
{
    book_test(book, scratch)?;
    inside(book, parent, term)?;
    let operator = named(book, EQUALS, &NO_NAMES);
    let before = Before {
        probe: None,
        equals: operator.new.then_some(EQUALS),
    };
    let parts = name_parts(count(book, LETTERS), &before, None);
    let terms = equality(constant as usize, operator.number, count(book, LISTS));
    let id = count(book, TERMS);
    let contexts: [u8; ROW3] = row([parent as usize, id + 1, NO_TRACE]);
    let entries: [u8; ROW2] = row([id, term as usize]);
    let more = Additions {
        letters: parts.letters.as_slice(),
        names: parts.rows.as_slice(),
        constants: b"",
        terms: &terms,
        contexts: &contexts,
        first: &entries,
        ..NOTHING
    };
    append(book, scratch, &more, true, next_node(book), out)
}
