#![tactic(auto)]
// The levels that a session stores: for each record the level where it was declared, 0 for not declared.
ghost use Rattle.std.specs.Prelude.{◌≡◌, ◌+◌, leb, length, if◌then◌else◌};
ghost use Rattle.basics.specs.Text.{same};
ghost use Rattle.rsolver.specs.LevelState.{level_count, no_levels, forget};

use book::format::*;

// The type of a stored level. Calls take levels as slices: a struct of them would ask more of the callers.
pub type Level = u16;

// Where the records of each section begin, the types first: as many places as the section's largest count.
pub const CONSTANT_PLACES: usize = TYPES_MOST;

pub const FUNCTION_PLACES: usize = CONSTANT_PLACES + CONSTANTS_MOST;

pub const AXIOM_PLACES: usize = FUNCTION_PLACES + FUNCTIONS_MOST;

pub const LITERAL_PLACES: usize = AXIOM_PLACES + AXIOMS_MOST;

pub const LEVEL_COUNT: usize = LITERAL_PLACES + TERMS_MOST;

// Nothing is declared. Written in place, the zeros would stand one by one in every proof.
pub fn blank() -> [Level; LEVEL_COUNT]
    ensures { result ≡ no_levels }
{
    [0; LEVEL_COUNT]
}

// The same levels in an array of their own.
pub fn copy(levels: &[Level]) -> [Level; LEVEL_COUNT]
    requires { length levels.now ≡ level_count }
    ensures { result ≡ levels.now }
{
    let mut copied = blank();
    copied.copy_from_slice(levels);
    copied
}

// Two slices hold the same levels: `==`, in the words of the test of a session.
pub fn same(a: &[Level], b: &[Level]) -> bool
    ensures { result ≡ same a.now b.now }
{
    a == b
}

// A level, or 0 if it is deeper than `depth`.
fn kept(level: Level, depth: usize) -> Level
    ensures { result ≡ (if leb (depth + 1) level then 0 else level) }
{
    if depth < level as usize { 0 } else { level }
}

// What was declared deeper than `depth` is not declared any more.
pub fn clear_above(levels: &mut [Level], depth: usize)
    ensures { levels.new ≡ forget (depth + 1) levels.old }
{
    for level in levels.iter_mut() {
        *level = kept(*level, depth);
    }
}
