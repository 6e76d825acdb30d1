// What the walk does outside its cycle of calls: constants, and what an axiom explains.
ghost use Rattle.std.specs.Prelude.{◌≡◌, ◌<◌, length};
ghost use Rattle.book.specs.Book.{constants, axioms, terms, size, field};
ghost use Rattle.book_test.specs.Promise.{Promise, GoodQuantifier};
ghost use Rattle.rsolver.specs.LevelState.{level_count};
ghost use Rattle.levels.specs.Did.{Ready, Did};
ghost use Rattle.levels.specs.Types.{constant_types_step};
ghost use Rattle.excluded.specs.Excluded.{Ranged};
ghost use Rattle.walk.specs.Walk.{id_step, all_explained, Walked};

use book::field;
use book::format::*;
use excluded::Excluded;
use levels::{
    CONSTANT_PLACES, FUNCTION_PLACES, Level, Progress, declare_constant, declare_constant_types,
};

// An Id: constant v.
pub fn declare_id(
    book: &[u8],
    v: usize,
    exclude: &Excluded,
    level: Level,
    levels: &mut [Level],
    so: Progress,
    out: &mut [u8],
) -> Progress
    requires { Ready book.now level levels.old × (v < size book.now constants) }
    ensures { Walked (id_step book.now v) exclude.now.bits level levels.old levels.new so out.old out.new result }
{
    if exclude.has(v) || levels[CONSTANT_PLACES + v] != 0 {
        so
    } else {
        declare_constant(book, v, level, levels, so, out)
    }
}

// The types of the variables of quantifier t.
pub fn declare_variables(
    book: &[u8],
    t: usize,
    level: Level,
    levels: &mut [Level],
    so: Progress,
    out: &mut [u8],
) -> Progress
    requires { Ready book.now level levels.old × (t < size book.now terms) × GoodQuantifier book.now t }
    ensures { Did (constant_types_step book.now (field book.now terms t 2) (field book.now terms t 3)) level levels.old levels.new so out.old out.new result }
{
    let start = field(book, TERMS, t, QUANTIFIER_CONSTANTS);
    let count = field(book, TERMS, t, QUANTIFIER_CONSTANTS + 1);
    declare_constant_types(book, start, count, level, levels, so, out)
}

// The exclusions with the variables of quantifier t.
pub fn exclude_variables(book: &[u8], t: usize, exclude: &Excluded) -> Excluded
    requires { Promise book.now × (t < size book.now terms) × GoodQuantifier book.now t }
    ensures { Ranged book.now (field book.now terms t 2) (field book.now terms t 3) exclude.now.bits result.bits }
{
    let start = field(book, TERMS, t, QUANTIFIER_CONSTANTS);
    let count = field(book, TERMS, t, QUANTIFIER_CONSTANTS + 1);
    exclude.with_constants(book, start, count)
}

// All functions that axiom k explains are declared.
pub fn all_explained(book: &[u8], k: usize, levels: &[Level]) -> bool
    requires { Promise book.now × (k < size book.now axioms) × (length levels.now ≡ level_count) }
    ensures { result ≡ all_explained book.now k levels.now }
{
    let start = field(book, AXIOMS, k, AXIOM_EXPLAINS);
    let count = field(book, AXIOMS, k, AXIOM_EXPLAINS + 1);
    for i in 0..count {
        let f = field(book, LISTS, start + i, LISTED);
        if levels[FUNCTION_PLACES + f] == 0 {
            return false;
        }
    }
    true
}
