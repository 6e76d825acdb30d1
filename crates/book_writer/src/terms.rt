// The call that appends a term, with the entries of its lists.
ghost use Rattle.std.specs.Prelude.{◌≡◌, ◌^◌, ◌<◌, ◌≤◌};
ghost use Rattle.book.specs.Book.{lists};
ghost use Rattle.book_writer.specs.Growths.{append_term, ranges_of, range_right, term_right};
ghost use Rattle.book_writer.specs.Writing.{lent, grow_call, Returned};
ghost use Rattle.book_writer.specs.Coded.{fields_of, IsTermRow, listed_bytes};

use super::Appended;
use super::appending::append;
use book::format::{LISTS, TERMS};
use book::{Kind, Refusal, count};
use book_growth::{Additions, NOTHING};
use book_test::book_test;
use new_records::{ROW7, range_start, row};

// The fields of a new term, as its record has them; start and count of a range are 0.
#[derive(Clone, Copy)]
pub struct TermFields {
    pub kind: u32,
    pub field1: u32,
    pub field2: u32,
    pub field3: u32,
    pub field4: u32,
    pub field5: u32,
    pub field6: u32,
}

// A list entry has four bytes.
const ENTRY: usize = 4;

// How many ranges a term's kind has.
fn ranges_of(kind: u32) -> usize
    ensures { result ≡ ranges_of kind }
{
    if kind == Kind::BuiltIn as u32 {
        return 1;
    }
    if kind == Kind::Application as u32 {
        return 1;
    }
    if kind == Kind::QuantifierExpr as u32 {
        return 2;
    }
    0
}

// A list that the kind has no range for is empty; another is whole numbers, and its range's fields are handed over as 0.
fn range_right(ranged: bool, start: u32, entries: u32, bytes: &[u8]) -> bool
    ensures { result ≡ range_right ranged start entries bytes.now }
{
    if !ranged {
        return bytes.len() == 0;
    }
    if start != 0 {
        return false;
    }
    if entries != 0 {
        return false;
    }
    bytes.len() == ENTRY * (bytes.len() / ENTRY)
}

fn term_right(ranges: usize, term: TermFields, first: &[u8], second: &[u8]) -> bool
    ensures { result ≡ term_right ranges (fields_of term) first.now second.now }
{
    if !range_right(1 <= ranges, term.field2, term.field3, first) {
        return false;
    }
    range_right(2 <= ranges, term.field4, term.field5, second)
}

// A term's record, with start and count of its ranges behind so many entries.
fn term_row(
    ranges: usize,
    behind: usize,
    term: TermFields,
    first: usize,
    second: usize,
) -> [u8; ROW7]
    requires { (behind ≤ lists.most) × (first < 2 ^ 62) }
    ensures { IsTermRow ranges behind (fields_of term) first second result }
{
    let TermFields {
        kind,
        field1,
        field2,
        field3,
        field4,
        field5,
        field6,
    } = term;
    let kept = [
        field2 as usize,
        field3 as usize,
        field4 as usize,
        field5 as usize,
    ];
    let start = range_start(behind, first);
    let next = range_start(behind + first, second);
    let [a, b, c, d] = match ranges {
        0 => kept,
        1 => [start, first, kept[2], kept[3]],
        _ => [start, first, next, second],
    };
    row([kind as usize, field1 as usize, a, b, c, d, field6 as usize])
}

// How many bytes of a list its range takes.
fn listed(ranged: bool, length: usize) -> usize
    ensures { result ≡ listed_bytes ranged length }
{
    if !ranged {
        return 0;
    }
    ENTRY * (length / ENTRY)
}

// Any book, scratch, fields, lists and buffer are taken.
pub fn append_term<'a>(
    book: &[u8],
    scratch: &mut [u8],
    term: TermFields,
    first: &'a [u8],
    second: &'a [u8],
    out: &mut [u8],
) -> Result<Appended, Refusal>
    ensures { Returned (grow_call book.now (lent (append_term (fields_of term) first.now second.now) scratch.old out.old)) result out.new scratch.new }
{
    book_test(book, scratch)?;
    let ranges = ranges_of(term.kind);
    let right = term_right(ranges, term, first, second);
    let row = term_row(
        ranges,
        count(book, LISTS),
        term,
        first.len() / ENTRY,
        second.len() / ENTRY,
    );
    let first_end = listed(1 <= ranges, first.len());
    let second_end = listed(2 <= ranges, second.len());
    let number = count(book, TERMS) as u32;
    let more = Additions {
        terms: &row,
        first: &first[..first_end],
        second: &second[..second_end],
        ..NOTHING
    };
    append(book, scratch, &more, right, number, out)
}
