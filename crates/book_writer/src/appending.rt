// What every call does with what it appends: the new book is laid out in a buffer of its own and tested there, so that the caller's is not
// touched before all is decided.
ghost use Rattle.std.specs.Prelude.{◌≡◌, true, length};
ghost use Rattle.book.specs.Book.{size};
ghost use Rattle.book_growth.specs.Growth.{grows_within, Whole, grown};
ghost use Rattle.book_growth.specs.Parts.{addition_by};
ghost use Rattle.book_layout.specs.Layout.{book_most};
ghost use Rattle.book_test.specs.Promise.{Promise};
ghost use Rattle.book_writer.specs.Growths.{outside_at};
ghost use Rattle.book_writer.specs.Coded.{Ready, Spare, fitted, deliver, append_in, Appends, Copied, Inside};

use super::Appended;
use basics::put_all;
use book::format::{CONTEXTS, TERMS};
use book::{Refusal, count};
use book_growth::{Additions, grow_into, grows_within};
use book_test::book_test;

// The length of a book whose sections are all full.
const BOOK_MOST: usize = 63312;

// Room for every book.
fn largest() -> [u8; BOOK_MOST]
    ensures { length result ≡ book_most }
{
    [0; BOOK_MOST]
}

// Refusal 7, of a parent and a term.
pub fn inside(book: &[u8], parent: u32, term: u32) -> Result<(), Refusal>
    requires { Promise book.now }
    ensures { Inside (outside_at book.now parent term) result }
{
    if count(book, CONTEXTS) < parent as usize || count(book, TERMS) <= term as usize {
        return Err(Refusal::NotInBook);
    }
    Ok(())
}

// Copies a book that passed its test.
fn copy(book: &[u8], number: u32, out: &mut [u8]) -> Result<Appended, Refusal>
    ensures { Copied (fitted book.now number (length out.old)) result out.old out.new }
{
    if out.len() < book.len() {
        return Err(Refusal::BufferTooShort);
    }
    put_all(book, out);
    Ok(Appended {
        number,
        length: book.len(),
    })
}

// Tests a book, and copies it.
fn test_and_copy(
    book: &[u8],
    scratch: &mut [u8],
    number: u32,
    out: &mut [u8],
) -> Result<Appended, Refusal>
    requires { Spare scratch.old }
    ensures { Appends (deliver book.now number (length out.old)) result out.old out.new scratch.old scratch.new }
{
    book_test(book, scratch)?;
    copy(book, number, out)
}

// Within the limits.
fn lay_out(
    book: &[u8],
    scratch: &mut [u8],
    more: &Additions,
    number: u32,
    out: &mut [u8],
) -> Result<Appended, Refusal>
    requires { Ready book.now scratch.old × Whole (addition_by more.now) × (grows_within book.now (addition_by more.now) ≡ true) }
    ensures { Appends (deliver (grown book.now (addition_by more.now)) number (length out.old)) result out.old out.new scratch.old scratch.new }
{
    let mut whole = largest();
    let length = grow_into(book, more, &mut whole);
    test_and_copy(&whole[..length], scratch, number, out)
}

// Behind refusal 7. `right`: what was handed over is as it must be. A flag and no Err, since it is told only behind refusal 3.
pub fn append(
    book: &[u8],
    scratch: &mut [u8],
    more: &Additions,
    right: bool,
    number: u32,
    out: &mut [u8],
) -> Result<Appended, Refusal>
    requires { Ready book.now scratch.old × Whole (addition_by more.now) }
    ensures { Appends (append_in book.now (addition_by more.now) right number (length out.old)) result out.old out.new scratch.old scratch.new }
{
    if !grows_within(book, more) {
        return Err(Refusal::CountOverLimit);
    }
    if !right {
        return Err(Refusal::FieldOutOfRange);
    }
    lay_out(book, scratch, more, number, out)
}
