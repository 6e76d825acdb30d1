#![tactic(auto)]
// The book: its format, its readers, and the refusals that every call shares.
ghost use Rattle.std.specs.Prelude.{◌≡◌, ◌+◌, ◌*◌, ◌<◌, ◌≤◌, length};
ghost use Rattle.book.specs.Book.{letters, names, offset, size, field, letter, name_text, word};
ghost use Rattle.book.specs.Laid.{section_at, Laid, Holds, Reads};

use format::{LETTERS, NAME_LENGTH, NAME_START, NAMES, SIZES};

pub mod format;
mod kind;
mod stype;

pub use kind::{Kind, NoKind};
pub use stype::SType;

// Why a call is refused, with its number in documents 01 and 02.
#[derive(Clone, Copy, PartialEq, Eq)]
pub enum Refusal {
    ShortScratch = 1,
    BadContents = 2,
    CountOverLimit = 3,
    FieldOutOfRange = 4,
    NoForest = 5,
    TooDeep = 6,
    NotInBook = 7,
    ReplyIsUnsat = 8,
    MissingAxiom = 9,
    BufferTooShort = 10,
    NoOperator = 11,
    NoSession = 20,
    QuestionOpen = 21,
    NoReplyOwed = 22,
    NoModelOwed = 23,
    TooDeepForNarrow = 24,
    TagInBook = 25,
    ForeignLine = 26,
    ChecksDiffer = 27,
    BadName = 28,
}

// A number has four bytes, an entry of the table of contents two numbers.
const WORD: usize = 4;

const ENTRY: usize = 8;

// The number that stands at `at`.
pub fn word(book: &[u8], at: usize) -> usize
    requires { at + 4 ≤ length book.now }
    ensures { Reads (word book.now at) result }
{
    u32::from_le_bytes([book[at], book[at + 1], book[at + 2], book[at + 3]]) as usize
}

// Where the section's records begin.
pub fn offset(book: &[u8], section: usize) -> usize
    requires { (section < 10) × (8 * section + 8 ≤ length book.now) }
    ensures { Reads (offset book.now (section_at section)) result }
{
    word(book, ENTRY * section)
}

// How many records the section has.
pub fn count(book: &[u8], section: usize) -> usize
    requires { (section < 10) × (8 * section + 8 ≤ length book.now) }
    ensures { Reads (size book.now (section_at section)) result }
{
    word(book, ENTRY * section + WORD)
}

// Field i of record k.
pub fn field(book: &[u8], section: usize, k: usize, i: usize) -> usize
    requires { (section < 10) × Holds book.now (section_at section) k i }
    ensures { Reads (field book.now (section_at section) k i) result }
{
    word(book, offset(book, section) + SIZES[section] * k + WORD * i)
}

// Letter i.
pub fn letter(book: &[u8], i: usize) -> u8
    requires { Laid book.now letters × (i < size book.now letters) }
    ensures { result ≡ letter book.now i }
{
    let at = offset(book, LETTERS) + i;
    book[at]
}

// The bytes of name n.
pub fn name(book: &[u8], n: usize) -> &[u8]
    requires { Laid book.now letters × Holds book.now names n 1 × (field book.now names n 0 + field book.now names n 1 ≤ size book.now letters) }
    ensures { result.now ≡ name_text book.now n }
{
    let start = offset(book, LETTERS) + field(book, NAMES, n, NAME_START);
    let end = start + field(book, NAMES, n, NAME_LENGTH);
    &book[start..end]
}
