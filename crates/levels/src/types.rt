// DeclareNewTypes, and DeclareSymbol of constants and functions with their types.
ghost use Rattle.std.specs.Prelude.{◌+◌, ◌<◌};
ghost use Rattle.book.specs.Book.{types, constants, functions, size, field, user_types};
ghost use Rattle.book_test.specs.Promise.{Range};
ghost use Rattle.levels.specs.Did.{Ready, Did};
ghost use Rattle.levels.specs.Types.{user_type_step, type_step, types_step, constant_types_step, constant_step, function_step};

use super::marks::mark;
use super::{CONSTANT_PLACES, FUNCTION_PLACES, Progress};
use book::format::*;
use book::{SType, field};
use session_levels::Level;

// User type k. It ends as the other declarations do, in two lines: a function for them would be no shorter.
fn declare_type(
    book: &[u8],
    k: usize,
    level: Level,
    levels: &mut [Level],
    so: Progress,
    out: &mut [u8],
) -> Progress
    requires { Ready book.now level levels.old × (k < size book.now types) }
    ensures { Did (user_type_step book.now k) level levels.old levels.new so out.old out.new result }
{
    if levels[k] == 0 {
        mark(k, level, levels);
        let at = smt_engines::declare_sort(book, k, so.at, out);
        Progress { at, ..so }
    } else {
        so
    }
}

// DeclareNewTypes.
pub fn declare_new_types(
    book: &[u8],
    typ: usize,
    level: Level,
    levels: &mut [Level],
    so: Progress,
    out: &mut [u8],
) -> Progress
    requires { Ready book.now level levels.old × (typ < user_types + size book.now types) }
    ensures { Did (type_step book.now typ) level levels.old levels.new so out.old out.new result }
{
    match SType::from(typ) {
        SType::Bool => so,
        SType::Int => so,
        SType::User(k) => declare_type(book, k, level, levels, so, out),
    }
}

// The types in a range of lists. Each walk of a range has its own loop: two lines are the same, and a closure for the rest would need each one's contract.
fn declare_types(
    book: &[u8],
    start: usize,
    count: usize,
    level: Level,
    levels: &mut [Level],
    so: Progress,
    out: &mut [u8],
) -> Progress
    requires { Ready book.now level levels.old × Range book.now (user_types + size book.now types) start count }
    ensures { Did (types_step book.now start count) level levels.old levels.new so out.old out.new result }
{
    let mut done = so;
    for i in 0..count {
        let typ = field(book, LISTS, start + i, LISTED);
        done = declare_new_types(book, typ, level, levels, done, out);
    }
    done
}

// The type of constant v.
pub fn declare_type_of(
    book: &[u8],
    v: usize,
    level: Level,
    levels: &mut [Level],
    so: Progress,
    out: &mut [u8],
) -> Progress
    requires { Ready book.now level levels.old × (v < size book.now constants) }
    ensures { Did (type_step book.now (field book.now constants v 1)) level levels.old levels.new so out.old out.new result }
{
    let typ = field(book, CONSTANTS, v, CONSTANT_TYPE);
    declare_new_types(book, typ, level, levels, so, out)
}

// The types of the constants in a range of lists.
pub fn declare_constant_types(
    book: &[u8],
    start: usize,
    count: usize,
    level: Level,
    levels: &mut [Level],
    so: Progress,
    out: &mut [u8],
) -> Progress
    requires { Ready book.now level levels.old × Range book.now (size book.now constants) start count }
    ensures { Did (constant_types_step book.now start count) level levels.old levels.new so out.old out.new result }
{
    let mut done = so;
    for i in 0..count {
        let v = field(book, LISTS, start + i, LISTED);
        done = declare_type_of(book, v, level, levels, done, out);
    }
    done
}

// Constant k, and its type.
pub fn declare_constant(
    book: &[u8],
    k: usize,
    level: Level,
    levels: &mut [Level],
    so: Progress,
    out: &mut [u8],
) -> Progress
    requires { Ready book.now level levels.old × (k < size book.now constants) }
    ensures { Did (constant_step book.now k) level levels.old levels.new so out.old out.new result }
{
    let done = declare_type_of(book, k, level, levels, so, out);
    mark(CONSTANT_PLACES + k, level, levels);
    let at = smt_engines::declare_constant(book, k, done.at, out);
    Progress { at, ..done }
}

// Function k, and its types.
pub fn declare_function(
    book: &[u8],
    k: usize,
    level: Level,
    levels: &mut [Level],
    so: Progress,
    out: &mut [u8],
) -> Progress
    requires { Ready book.now level levels.old × (k < size book.now functions) }
    ensures { Did (function_step book.now k) level levels.old levels.new so out.old out.new result }
{
    let start = field(book, FUNCTIONS, k, FUNCTION_INPUTS);
    let count = field(book, FUNCTIONS, k, FUNCTION_INPUTS + 1);
    let inputs = declare_types(book, start, count, level, levels, so, out);
    let typ = field(book, FUNCTIONS, k, FUNCTION_TYPE);
    let done = declare_new_types(book, typ, level, levels, inputs, out);
    mark(FUNCTION_PLACES + k, level, levels);
    let at = smt_engines::declare_function(book, k, done.at, out);
    Progress { at, ..done }
}
