// The front of the input: the book's length and the book.
ghost use Rattle.std.specs.Prelude.{◌≡◌, false, ◌+◌, ◌≤◌, length};
ghost use Rattle.book.specs.Book.{word};
ghost use Rattle.script_text.specs.Script.{number_size, is_cut};

use book::word;

// The longest input that is read.
pub const INPUT_MOST: usize = 65_536;

// Bytes of a number.
pub const NUMBER: usize = 4;

// Too long, without a length, or with a book cut short.
pub fn is_cut(input: &[u8]) -> bool
    ensures { result ≡ is_cut input.now }
{
    let length = input.len();
    if INPUT_MOST < length {
        return true;
    }
    if length < NUMBER {
        return true;
    }
    length < NUMBER + word(input, 0)
}

// Where the calls start.
pub fn calls_start(input: &[u8]) -> usize
    requires { is_cut input.now ≡ false }
    ensures { (result ≡ number_size + word input.now 0) × (number_size ≤ result) × (result ≤ length input.now) }
{
    NUMBER + word(input, 0)
}
