#![tactic(auto)]
// A book that grows: behind each section's records stand new ones. New letters and new list entries come in two parts.
ghost use Rattle.std.specs.Prelude.{◌≡◌, ◌++◌, true, ◌+◌, ◌/◌, ◌<◌, ◌≤◌, length};
ghost use Rattle.basics.specs.Lists.{join_below};
ghost use Rattle.basics.specs.Write.{WroteAt};
ghost use Rattle.book.specs.Laid.{section_at, section_count, Laid, AllLaid};
ghost use Rattle.book.specs.Book.{size};
ghost use Rattle.book_contents.specs.Contents.{laid_out};
ghost use Rattle.book_layout.specs.Layout.{body_at, count_of};
ghost use Rattle.book_growth.specs.Growth.{added, grown_body, grows_by, grows_within, Whole, grown};
ghost use Rattle.book_growth.specs.Parts.{addition_by, part, rest, grown_count, grown_counts};

use basics::{put_at, sum};
use book::count;
use book::format::{CONSTANTS, CONTEXTS, LETTERS, LISTS, NAMES, SECTIONS, SIZES, TERMS};
use book_contents::LIMITS;
use book_layout::{put_section, put_table};

// What is appended to a book: the bytes of new records. The text and the lists of a caller have lifetimes of their own, since the borrow checker
// covers no field that is borrowed for what two lifetimes have in common.
#[derive(Clone, Copy)]
pub struct Additions<'t, 'r, 'l> {
    pub letters: &'r [u8],
    pub text: &'t [u8],
    pub names: &'r [u8],
    pub constants: &'r [u8],
    pub terms: &'r [u8],
    pub contexts: &'r [u8],
    pub first: &'l [u8],
    pub second: &'l [u8],
}

// Nothing: a call names what it appends besides.
pub const NOTHING: Additions = Additions {
    letters: b"",
    text: b"",
    names: b"",
    constants: b"",
    terms: b"",
    contexts: b"",
    first: b"",
    second: b"",
};

impl<'t, 'r, 'l> Additions<'t, 'r, 'l> {
    // What is appended to a section.
    fn part(&self, section: usize) -> &[u8]
        requires { section < 10 }
        ensures { result.now ≡ part self.now section }
    {
        match section {
            LETTERS => self.letters,
            NAMES => self.names,
            CONSTANTS => self.constants,
            TERMS => self.terms,
            CONTEXTS => self.contexts,
            LISTS => self.first,
            _ => b"",
        }
    }

    // And what comes behind that.
    fn rest(&self, section: usize) -> &[u8]
        requires { section < 10 }
        ensures { result.now ≡ rest self.now section }
    {
        match section {
            LETTERS => self.text,
            LISTS => self.second,
            _ => b"",
        }
    }
}

// Whether the new records keep a section within its limit.
fn grows_by(book: &[u8], more: &Additions, section: usize) -> bool
    requires { (section < 10) × Laid book.now (section_at section) }
    ensures { result ≡ grows_by book.now (addition_by more.now) section }
{
    let bytes = sum(more.part(section).len(), more.rest(section).len());
    bytes / SIZES[section] <= LIMITS[section] - count(book, section)
}

// Refusal 3 of a grown book, by counts.
pub fn grows_within(book: &[u8], more: &Additions) -> bool
    requires { AllLaid book.now }
    ensures { result ≡ grows_within book.now (addition_by more.now) }
{
    for section in 0..SECTIONS {
        if !grows_by(book, more, section) {
            return false;
        }
    }
    true
}

// How many records a section has, with the new ones.
fn grown_count(book: &[u8], more: &Additions, section: usize) -> usize
    requires { (section < 10) × Laid book.now (section_at section) × (size book.now (section_at section) + count_of (added (addition_by more.now)) (section_at section) ≤ (section_at section).most) }
    ensures { result ≡ grown_count book.now (addition_by more.now) (section_at section) }
{
    let bytes = more.part(section).len() + more.rest(section).len();
    count(book, section) + bytes / SIZES[section]
}

// The counts of a grown book.
fn grown_counts(book: &[u8], more: &Additions) -> [usize; SECTIONS]
    requires { AllLaid book.now × (grows_within book.now (addition_by more.now) ≡ true) }
    ensures { result ≡ grown_counts book.now (addition_by more.now) }
{
    let mut counts = [0; SECTIONS];
    for section in 0..SECTIONS {
        counts[section] = grown_count(book, more, section);
    }
    counts
}

// Writes a section's records at a place, and behind them the new ones.
fn put_grown(book: &[u8], more: &Additions, section: usize, at: usize, out: &mut [u8]) -> usize
    requires { (section < 10) × Laid book.now (section_at section) }
    ensures { WroteAt (grown_body book.now (addition_by more.now) (section_at section)) at out.old out.new result }
{
    let next = put_section(book, section, more.part(section), at, out);
    put_at(more.rest(section), next, out)
}

// Writes a grown book at the front of a buffer, as far as the buffer goes, and answers its length.
pub fn grow_into(book: &[u8], more: &Additions, out: &mut [u8]) -> usize
    requires { AllLaid book.now × (laid_out book.now ≡ true) × Whole (addition_by more.now) × (grows_within book.now (addition_by more.now) ≡ true) }
    ensures { WroteAt (grown book.now (addition_by more.now)) 0 out.old out.new result }
{
    let counts = grown_counts(book, more);
    let mut at = put_table(&counts, out);
    for section in 0..SECTIONS {
        at = put_grown(book, more, section, at, out);
    }
    at
}
