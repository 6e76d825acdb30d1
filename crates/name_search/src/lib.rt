#![tactic(auto)]
// The search for a name by its text; and the name of a probe.
ghost use Rattle.std.specs.Prelude.{◌≡◌, ◌<◌};
ghost use Rattle.basics.specs.Text.{same};
ghost use Rattle.book.specs.Book.{names, size, name_text};
ghost use Rattle.book_test.specs.Promise.{Promise};
ghost use Rattle.name_search.specs.Names.{first_name, maybe};

use basics::same;
use book::format::{NAME_LENGTH, NAMES};
use book::{count, field, name};

mod probe;

pub use probe::{PROBE_MOST, ProbeName, filled, probe_name};

// Name n has the text. Most names have another length, and their letters are not looked at.
fn has_text(book: &[u8], n: usize, text: &[u8]) -> bool
    requires { Promise book.now × (n < size book.now names) }
    ensures { result ≡ same (name_text book.now n) text.now }
{
    if field(book, NAMES, n, NAME_LENGTH) != text.len() {
        return false;
    }
    same(name(book, n), text)
}

// The lowest number of a name with the text.
pub fn find_name(book: &[u8], text: &[u8]) -> Option<usize>
    requires { Promise book.now }
    ensures { maybe result ≡ first_name book.now text.now }
{
    (0..count(book, NAMES)).find(
        |&n|
            requires { Promise book.now × (n < size book.now names) }
            ensures { result ≡ same (name_text book.entry.now n) text.entry.now }
        { has_text(book, n, text) },
    )
}
