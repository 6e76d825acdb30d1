#![tactic(auto)]
// The test of a book: refusals 1 to 6 and 28, each but 1 decided for the whole book before the next.
ghost use Rattle.std.specs.Prelude.{◌≡◌};
ghost use Rattle.book_test.specs.BookTest.{tested_value, book_test_call};

use basics::SCRATCH_LEAST;
use book::Refusal;
use book_contents::{counts_fit, laid_out};
use book_depth::shallow;
use book_forest::{clear, is_forest};
use book_names::names_good;
use book_records::fields_in_range;
use book_terms::terms_in_range;

// The scratch is all zero afterwards, except under refusal 1, where it isn't touched.
pub fn book_test(book: &[u8], scratch: &mut [u8]) -> Result<(), Refusal>
    ensures { (tested_value result ≡ (book_test_call book.now scratch.old).answer) × (scratch.new ≡ (book_test_call book.now scratch.old).scratch) }
{
    if scratch.len() < SCRATCH_LEAST {
        return Err(Refusal::ShortScratch);
    }
    clear(scratch);
    if !laid_out(book) {
        return Err(Refusal::BadContents);
    }
    if !counts_fit(book) {
        return Err(Refusal::CountOverLimit);
    }
    if !fields_in_range(book) {
        return Err(Refusal::FieldOutOfRange);
    }
    if !terms_in_range(book) {
        return Err(Refusal::FieldOutOfRange);
    }
    if !is_forest(book, scratch) {
        return Err(Refusal::NoForest);
    }
    if !shallow(book) {
        return Err(Refusal::TooDeep);
    }
    if !names_good(book) {
        return Err(Refusal::BadName);
    }
    Ok(())
}
