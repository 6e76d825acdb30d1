// Finds a declared literal by its name's text, and stops there.
ghost use Rattle.std.specs.Prelude.{◌≡◌, ◌∷◌, [], ◌<◌, length, drop};
ghost use Rattle.book.specs.Book.{terms, size};
ghost use Rattle.book.specs.Decode.{literal_at, program};
ghost use Rattle.book_test.specs.Promise.{Promise};
ghost use Rattle.rsolver.specs.LevelState.{literal_places, level_count};
ghost use Rattle.literal_names.specs.Names.{barred, Seeks};
ghost use Rattle.literals.specs.Literals.{declares_name};
ghost use Rattle.literals.specs.Search.{literal_count, search, search_value};

use super::Search;
use book::format::*;
use book::{Kind, count, field};
use levels::{LITERAL_PLACES, Level};
use literal_names::{Sought, agrees};

// How many literals term k is: one or none.
fn literals_at(book: &[u8], k: usize) -> usize
    requires { Promise book.now × (k < size book.now terms) }
    ensures { result ≡ literal_count (literal_at book.now k ∷ []) }
{
    if field(book, TERMS, k, KIND) == Kind::CustomLiteral as usize {
        1
    } else {
        0
    }
}

// Term k is a literal that declared the name. The level is looked at before the record, and most terms are not declared.
fn declares_name(
    book: &[u8],
    k: usize,
    sought: Sought,
    s: &[u8],
    typ: &[u8],
    levels: &[Level],
) -> bool
    requires { Promise book.now × (k < size book.now terms) × Seeks book.now sought s.now typ.now × (length levels.now ≡ level_count) }
    ensures { result ≡ declares_name book.now (barred s.now typ.now) levels.now k }
{
    levels[LITERAL_PLACES + k] != 0
        && field(book, TERMS, k, KIND) == Kind::CustomLiteral as usize
        && agrees(book, k, sought, s, typ)
}

// Finds a declared literal by its name's text. Where nobody reads the count, the compiler leaves it out.
pub fn find_literal(book: &[u8], sought: Sought, s: &[u8], typ: &[u8], levels: &[Level]) -> Search
    requires { Promise book.now × Seeks book.now sought s.now typ.now × (length levels.now ≡ level_count) }
    ensures { search_value result ≡ search (barred s.now typ.now) (program book.now).literals (drop literal_places levels.now) }
{
    let mut gone = 0;
    for k in 0..count(book, TERMS) {
        gone += literals_at(book, k);
        if declares_name(book, k, sought, s, typ, levels) {
            return Search {
                found: Some(k),
                gone,
            };
        }
    }
    Search { found: None, gone }
}
