// The calls that append a name, a constant or a node.
ghost use Rattle.book_writer.specs.Growths.{append_name, append_constant, append_node};
ghost use Rattle.book_writer.specs.Writing.{lent, grow_call, Returned};

use super::Appended;
use super::appending::{append, inside};
use super::extending::next_node;
use book::format::{CONSTANTS, LETTERS, NAMES};
use book::{Refusal, count};
use book_growth::{Additions, NOTHING};
use book_test::book_test;
use new_records::{ROW2, ROW3, name_row, row};

// Any book, scratch, text and buffer are taken.
pub fn append_name(
    book: &[u8],
    scratch: &mut [u8],
    text: &[u8],
    out: &mut [u8],
) -> Result<Appended, Refusal>
    ensures { Returned (grow_call book.now (lent (append_name text.now) scratch.old out.old)) result out.new scratch.new }
{
    book_test(book, scratch)?;
    let names = name_row(count(book, LETTERS), text.len());
    let number = count(book, NAMES) as u32;
    let more = Additions {
        text,
        names: &names,
        ..NOTHING
    };
    append(book, scratch, &more, true, number, out)
}

// Any book, scratch, numbers and buffer are taken.
pub fn append_constant(
    book: &[u8],
    scratch: &mut [u8],
    name: u32,
    typ: u32,
    out: &mut [u8],
) -> Result<Appended, Refusal>
    ensures { Returned (grow_call book.now (lent (append_constant name typ) scratch.old out.old)) result out.new scratch.new }
{
    book_test(book, scratch)?;
    let constants: [u8; ROW2] = row([name as usize, typ as usize]);
    let number = count(book, CONSTANTS) as u32;
    let more = Additions {
        constants: &constants,
        ..NOTHING
    };
    append(book, scratch, &more, true, number, out)
}

// Any book, scratch, numbers and buffer are taken. The trace is a name's number and one, or 0.
pub fn append_node(
    book: &[u8],
    scratch: &mut [u8],
    parent: u32,
    term: u32,
    trace: u32,
    out: &mut [u8],
) -> Result<Appended, Refusal>
    ensures { Returned (grow_call book.now (lent (append_node parent term trace) scratch.old out.old)) result out.new scratch.new }
{
    book_test(book, scratch)?;
    inside(book, parent, term)?;
    let contexts: [u8; ROW3] = row([parent as usize, term as usize, trace as usize]);
    let more = Additions {
        contexts: &contexts,
        ..NOTHING
    };
    append(book, scratch, &more, true, next_node(book), out)
}
