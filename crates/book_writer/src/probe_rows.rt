// The rows that Record and RecordTracePoint append. They differ in the term: a trace point's is a new `true`.
ghost use Rattle.std.specs.Prelude.{◌≡◌, map, ◌+◌, ◌≤◌};
ghost use Rattle.basics.specs.Bytes.{rows};
ghost use Rattle.basics.specs.Write.{WroteAt};
ghost use Rattle.book.specs.Book.{names};
ghost use Rattle.book_test.specs.Promise.{Promise};
ghost use Rattle.name_search.specs.Names.{maybe};
ghost use Rattle.new_records.specs.Drafts.{term_row};
ghost use Rattle.book_writer.specs.Growths.{probe_terms, probe_lists};
ghost use Rattle.book_writer.specs.Coded.{IsEquality, true_if, AreRows};

use arrayvec::ArrayVec;
use basics::put_at;
use book::format::{CONSTANTS, LISTS, TERMS};
use book::{Kind, count};
use name_search::filled;
use new_records::{ProbeNames, ROW2, ROW3, ROW7, equality, row};

// The value of `true`.
const TRUE: usize = 1;

const THREE_TERMS: usize = 3 * ROW7;

// The rows of the new constant, terms, node and list entries.
#[derive(Drop)]
pub struct ProbeRows {
    pub constant: [u8; ROW2],
    pub terms: ArrayVec<u8, THREE_TERMS>,
    pub node: [u8; ROW3],
    pub entries: [u8; ROW2],
}

// Writes the term `true`, if none is given.
fn put_true(term: Option<u32>, out: &mut [u8]) -> usize
    ensures { WroteAt (true_if (maybe term)) 0 out.old out.new result }
{
    match term {
        Some(_) => 0,
        None => {
            let terms: [u8; ROW7] = row([Kind::Boolean as usize, TRUE, 0, 0, 0, 0, 0]);
            put_at(&terms, 0, out)
        }
    }
}

fn point_terms(book: &[u8], operator: usize, term: Option<u32>) -> ArrayVec<u8, THREE_TERMS>
    requires { Promise book.now }
    ensures { result.items ≡ rows (map term_row (probe_terms book.now operator (maybe term))) }
{
    let equal = equality(count(book, CONSTANTS), operator, count(book, LISTS));
    let mut bytes = [0; THREE_TERMS];
    let next = put_true(term, &mut bytes);
    let length = put_at(&equal, next, &mut bytes);
    filled(bytes, length)
}

// The equality's arguments: the constant, and the term or the new `true` before it.
fn point_entries(book: &[u8], term: Option<u32>) -> [u8; ROW2]
    requires { Promise book.now }
    ensures { result ≡ probe_lists book.now (maybe term) }
{
    let terms = count(book, TERMS);
    match term {
        Some(term) => row([terms, term as usize]),
        None => row([terms + 1, terms]),
    }
}

// The equality's number.
fn point_equality(book: &[u8], term: Option<u32>) -> usize
    requires { Promise book.now }
    ensures { IsEquality book.now (maybe term) result }
{
    let terms = count(book, TERMS);
    match term {
        Some(_) => terms + 1,
        None => terms + 2,
    }
}

pub fn probe_rows(
    book: &[u8],
    named: &ProbeNames,
    parent: u32,
    typ: u32,
    term: Option<u32>,
) -> ProbeRows
    requires { Promise book.now × (named.now.trace.number ≤ names.most + 2) }
    ensures { AreRows book.now named.now parent typ (maybe term) result }
{
    let id = point_equality(book, term);
    ProbeRows {
        constant: row([named.probe.number, typ as usize]),
        terms: point_terms(book, named.equals.number, term),
        node: row([parent as usize, id, named.trace.number + 1]),
        entries: point_entries(book, term),
    }
}
