#![tactic(auto)]
// A book by the bytes of its sections: its table of contents, and the bodies of its sections.
ghost use Rattle.std.specs.Prelude.{◌≡◌, ◌++◌, ◌<◌};
ghost use Rattle.basics.specs.Bytes.{bytes4};
ghost use Rattle.basics.specs.Write.{WroteAt};
ghost use Rattle.book.specs.Laid.{section_at, Laid};
ghost use Rattle.book_layout.specs.Layout.{body};
ghost use Rattle.book_layout.specs.Table.{Counts, table_by};

use basics::{put_at, put_word};
use book::format::{CONTENTS, SECTIONS, SIZES};
use book::{count, offset};

// Writes a section's line of the table of contents at a place.
fn put_entry(start: usize, count: usize, at: usize, out: &mut [u8]) -> usize
    ensures { WroteAt (bytes4 start ++ bytes4 count) at out.old out.new result }
{
    let next = put_word(start, at, out);
    put_word(count, next, out)
}

// Writes the table of contents, from the sections' counts, at the front of a buffer.
pub fn put_table(counts: &[usize; SECTIONS], out: &mut [u8]) -> usize
    requires { Counts counts.now }
    ensures { WroteAt (table_by counts.now) 0 out.old out.new result }
{
    let mut start = CONTENTS;
    let mut at = 0;
    for n in 0..SECTIONS {
        at = put_entry(start, counts[n], at, out);
        start += SIZES[n] * counts[n];
    }
    at
}

// The bytes of a section's records.
pub fn body(book: &[u8], section: usize) -> &[u8]
    requires { (section < 10) × Laid book.now (section_at section) }
    ensures { result.now ≡ body book.now (section_at section) }
{
    let start = offset(book, section);
    let end = start + SIZES[section] * count(book, section);
    &book[start..end]
}

// Writes a section's records, and then more of them, at a place.
pub fn put_section(book: &[u8], section: usize, more: &[u8], at: usize, out: &mut [u8]) -> usize
    requires { (section < 10) × Laid book.now (section_at section) }
    ensures { WroteAt (body book.now (section_at section) ++ more.now) at out.old out.new result }
{
    let next = put_at(body(book, section), at, out);
    put_at(more, next, out)
}
