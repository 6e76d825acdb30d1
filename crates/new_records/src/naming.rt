// The names that the four need: found or new, and the letters and rows of the new ones.
ghost use Rattle.std.specs.Prelude.{◌≡◌, ◌≤◌, length, suc};
ghost use Rattle.basics.specs.Write.{WroteAt};
ghost use Rattle.basics.specs.Bytes.{rows};
ghost use Rattle.book.specs.Book.{letters, names};
ghost use Rattle.book_test.specs.Promise.{Promise};
ghost use Rattle.name_search.specs.Probe.{probe_most};
ghost use Rattle.new_records.specs.Drafts.{name_rows, all_letters};
ghost use Rattle.new_records.specs.NewNames.{new_text, new_before, stands, IsBehind, IsNamed, AreNamed, AreParts, maybe_text};

use super::rows::{ROW2, name_row};
use arrayvec::ArrayVec;
use basics::{put_at, same};
use book::count;
use book::format::NAMES;
use name_search::{PROBE_MOST, filled, find_name};

// A name's number, and whether it is to be appended.
#[derive(Clone, Copy)]
pub struct Numbered {
    pub number: usize,
    pub new: bool,
}

// The texts that a call appends before another: the probe's name and `=`, where they are new.
#[derive(Clone, Copy)]
pub struct Before<'a> {
    pub probe: Option<&'a [u8]>,
    pub equals: Option<&'a [u8]>,
}

// The names of Record and RecordTracePoint.
#[derive(Clone, Copy)]
pub struct ProbeNames {
    pub probe: Numbered,
    pub equals: Numbered,
    pub trace: Numbered,
}

// Of new names: the letters of the probe's and `=`, and a row for each. The trace's letters are not copied.
#[derive(Drop)]
pub struct NameParts {
    pub letters: ArrayVec<u8, FRONT>,
    pub rows: ArrayVec<u8, THREE_ROWS>,
}

// A probe's name and `=`.
const FRONT: usize = PROBE_MOST + 1;

const THREE_ROWS: usize = 3 * ROW2;

// The operator of equality.
pub const EQUALS: &[u8] = b"=";

// How many names a text that may be new is.
fn counted(new: Option<&[u8]>) -> usize
    ensures { result ≡ length (new_text new.entry) }
{
    usize::from(new.is_some())
}

// Whether a name that is new already has the text.
fn stands(new: Option<&[u8]>, text: &[u8]) -> bool
    ensures { result ≡ stands text.now (new_text new.entry) }
{
    match new {
        Some(name) => same(name, text),
        None => false,
    }
}

// Of a text that the book's names, so many, don't have.
fn new_name(all: usize, text: &[u8], before: &Before) -> Numbered
    requires { all ≤ names.most }
    ensures { IsBehind all text.now (new_before before.now) result }
{
    if stands(before.probe, text) {
        return Numbered {
            number: all,
            new: false,
        };
    }
    let second = all + counted(before.probe);
    if stands(before.equals, text) {
        return Numbered {
            number: second,
            new: false,
        };
    }
    Numbered {
        number: second + counted(before.equals),
        new: true,
    }
}

// The first name with a text, among those of the book and the new ones before; or a new one.
pub fn named(book: &[u8], text: &[u8], before: &Before) -> Numbered
    requires { Promise book.now }
    ensures { IsNamed book.now text.now (new_before before.now) result }
{
    match find_name(book, text) {
        Some(number) => Numbered { number, new: false },
        None => new_name(count(book, NAMES), text, before),
    }
}

// Writes a text at a place, if it is new.
fn put_text(new: Option<&[u8]>, at: usize, out: &mut [u8]) -> usize
    requires { at ≤ suc probe_most }
    ensures { WroteAt (all_letters (new_text new.entry)) at out.old out.new result }
{
    match new {
        Some(text) => put_at(text, at, out),
        None => at,
    }
}

// Writes a name's row at a place, if it is new.
fn put_name(new: Option<&[u8]>, behind: usize, at: usize, out: &mut [u8]) -> usize
    requires { at ≤ 16 }
    ensures { WroteAt (rows (name_rows behind (new_text new.entry))) at out.old out.new result }
{
    match new {
        Some(text) => put_at(&name_row(behind, text.len()), at, out),
        None => at,
    }
}

// The letters and rows of new names behind so many letters.
pub fn name_parts(behind: usize, before: &Before, text: Option<&[u8]>) -> NameParts
    requires { (behind ≤ letters.most) × (length (all_letters (new_before before.now)) ≤ suc probe_most) }
    ensures { AreParts behind (new_before before.now) (new_text text.entry) result }
{
    let mut letters = [0; FRONT];
    let middle = put_text(before.probe, 0, &mut letters);
    let length = put_text(before.equals, middle, &mut letters);
    let mut rows = [0; THREE_ROWS];
    let second = put_name(before.probe, behind, 0, &mut rows);
    let third = put_name(before.equals, behind + middle, second, &mut rows);
    let end = put_name(text, behind + length, third, &mut rows);
    NameParts {
        letters: filled(letters, length),
        rows: filled(rows, end),
    }
}

// The names of Record and RecordTracePoint. Where no trace is given, the probe's name is the trace.
pub fn probe_names(book: &[u8], name: &[u8], trace: Option<&[u8]>) -> ProbeNames
    requires { Promise book.now }
    ensures { AreNamed book.now name.now (maybe_text trace.entry) result }
{
    let mut before = Before {
        probe: None,
        equals: None,
    };
    let probe = named(book, name, &before);
    before.probe = probe.new.then_some(name);
    let equals = named(book, EQUALS, &before);
    before.equals = equals.new.then_some(EQUALS);
    let trace = match trace {
        Some(trace) => named(book, trace, &before),
        None => Numbered {
            number: probe.number,
            new: false,
        },
    };
    ProbeNames {
        probe,
        equals,
        trace,
    }
}
