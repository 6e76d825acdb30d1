// The turns on images: the one received is only read, the other is written from byte 0 of a buffer of its own. A refused turn leaves the
// buffer as it was.
ghost use Rattle.solvers.specs.Narrow.{widened_on_image, narrowed_on_image};
ghost use Rattle.narrow_sessions.specs.Turned.{ImageTurned};

use super::image::{NARROW_IMAGE, load_narrow, save_narrow};
use super::turning::{narrow_in, widen_in};
use book::Refusal;
use book_test::book_test;
use images::{IMAGE, load, save};

// Any book, scratch and bytes are taken.
pub fn widen_image(
    book: &[u8],
    scratch: &mut [u8],
    narrow: &[u8],
    image: &mut [u8],
) -> Result<(), Refusal>
    ensures { ImageTurned (widened_on_image book.now scratch.old narrow.now image.old) result image.new scratch.new }
{
    book_test(book, scratch)?;
    if image.len() != IMAGE {
        return Err(Refusal::NoSession);
    }
    let wide = widen_in(&load_narrow(narrow), book)?;
    save(&wide, image);
    Ok(())
}

pub fn narrow_image(
    book: &[u8],
    scratch: &mut [u8],
    image: &[u8],
    narrow: &mut [u8],
) -> Result<(), Refusal>
    ensures { ImageTurned (narrowed_on_image book.now scratch.old image.now narrow.old) result narrow.new scratch.new }
{
    book_test(book, scratch)?;
    if narrow.len() != NARROW_IMAGE {
        return Err(Refusal::NoSession);
    }
    let turned = narrow_in(&load(image), book)?;
    save_narrow(&turned, narrow);
    Ok(())
}
