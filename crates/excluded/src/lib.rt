#![tactic(auto)]
// The constants that a walk leaves out, as a set by value.
ghost use Rattle.std.specs.Prelude.{◌≡◌, [], ◌+◌, ◌<◌, length};
ghost use Rattle.book.specs.Book.{constants, size};
ghost use Rattle.book_test.specs.Promise.{Promise, Range};
ghost use Rattle.excluded.specs.Excluded.{set_size, is_excluded, Excludes, Joined, Ranged};

use basics::{BITS, has_bit, with_bit};
use book::field;
use book::format::*;

// The set's bytes, of eight bits each.
pub const SIZE: usize = CONSTANTS_MOST / BITS;

// A set of constants, by their numbers: a bit for each.
#[derive(Clone, Copy)]
pub struct Excluded {
    pub bits: [u8; SIZE],
    pub ghost long: { length bits ≡ set_size },
}

impl Excluded {
    // Nothing is excluded.
    pub fn nothing() -> Excluded
        ensures { Excludes result.bits [] }
    {
        Excluded { bits: [0; SIZE] }
    }

    // Constant v is in the set.
    pub fn has(&self, v: usize) -> bool
        requires { v < constants.most }
        ensures { result ≡ is_excluded self.now.bits v }
    {
        has_bit(self.bits[v / BITS], v % BITS)
    }

    // The set with constant v.
    pub fn with(&self, v: usize) -> Excluded
        requires { v < constants.most }
        ensures { Joined self.now.bits result.bits v }
    {
        if self.has(v) {
            return *self;
        }
        let mut bits = self.bits;
        bits[v / BITS] = with_bit(bits[v / BITS], v % BITS);
        Excluded { bits }
    }

    // The set with the constants in a range of lists.
    pub fn with_constants(&self, book: &[u8], start: usize, count: usize) -> Excluded
        requires { Promise book.now × Range book.now (size book.now constants) start count }
        ensures { Ranged book.now start count self.now.bits result.bits }
    {
        let mut all = *self;
        for i in 0..count {
            let v = field(book, LISTS, start + i, LISTED);
            all = all.with(v);
        }
        all
    }
}
