#![tactic(auto)]
// A list of numbers that is handed over as bytes: how many they are, and each of them.
ghost use Rattle.std.specs.Prelude.{◌≡◌, ◌<◌, length, get_or};
ghost use Rattle.number_lists.specs.Numbers.{numbers};

use book::word;

// A number has four bytes.
const WORD: usize = 4;

// What stands for a number that is cut short: one more than 32 bits hold. It is no Option, since the comparison that finds a number
// outside a book finds it too, and behind that comparison no caller would have anything to unwrap.
pub const CUT: usize = 0x100000000;

// One that is cut short counts.
pub fn number_count(list: &[u8]) -> usize
    ensures { result ≡ length (numbers list.now) }
{
    list.len().div_ceil(WORD)
}

// Number i.
pub fn number_at(list: &[u8], i: usize) -> usize
    requires { i < length (numbers list.now) }
    ensures { result ≡ get_or (numbers list.now) i 0 }
{
    if i < list.len() / WORD {
        word(list, WORD * i)
    } else {
        CUT
    }
}
