// Rows of fields, as records and ranges of entries have them.
ghost use Rattle.std.specs.Prelude.{◌≡◌, [], ◌∷◌, ◌*◌, map};
ghost use Rattle.basics.specs.Bytes.{row, rows};
ghost use Rattle.new_records.specs.Drafts.{identifier, equality, range_start, name_row, term_row};

use basics::{put_at, put_word};
use book::Kind;

// Bytes of a row of so many fields.
pub const ROW2: usize = 8;

pub const ROW3: usize = 12;

pub const ROW7: usize = 28;

pub const EQUALITY: usize = 2 * ROW7;

// The arguments of an equality.
const ARGUMENTS: usize = 2;

pub fn row<const FIELDS: usize, const BYTES: usize>(fields: [usize; FIELDS]) -> [u8; BYTES]
    requires { BYTES ≡ 4 * FIELDS }
    ensures { result ≡ row fields.entry }
{
    let mut out = [0; BYTES];
    let mut at = 0;
    for field in fields {
        at = put_word(field, at, &mut out);
    }
    out
}

// A range's start, in its record.
pub fn range_start(behind: usize, length: usize) -> usize
    ensures { result ≡ range_start behind length }
{
    if length == 0 { 0 } else { behind }
}

// Of a name whose letters stand behind so many.
pub fn name_row(behind: usize, length: usize) -> [u8; ROW2]
    ensures { result ≡ row (name_row behind length) }
{
    row([range_start(behind, length), length])
}

// The terms of an equality: a constant, and the operator's application to two entries from a place of the lists on.
pub fn equality(constant: usize, operator: usize, entries: usize) -> [u8; EQUALITY]
    ensures { result ≡ rows (map term_row (identifier constant ∷ equality operator entries ∷ [])) }
{
    let id: [u8; ROW7] = row([Kind::Id as usize, constant, 0, 0, 0, 0, 0]);
    let equal: [u8; ROW7] = row([
        Kind::BuiltIn as usize,
        operator,
        entries,
        ARGUMENTS,
        0,
        0,
        0,
    ]);
    let mut out = [0; EQUALITY];
    let next = put_at(&id, 0, &mut out);
    put_at(&equal, next, &mut out);
    out
}
