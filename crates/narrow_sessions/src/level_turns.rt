// The levels of one kind as those of the other. With `map` of an array what the closure needs at each element got no proof.
ghost use Rattle.std.specs.Prelude.{◌≡◌};
ghost use Rattle.rsolver.specs.LevelState.{no_levels};
ghost use Rattle.solvers.specs.Narrow.{Bytes};

use session_levels::{LEVEL_COUNT, Level, blank};

// Nothing is declared. Written in place, the zeros would stand one by one in every proof.
pub fn no_levels() -> [u8; LEVEL_COUNT]
    ensures { result ≡ no_levels }
{
    [0; LEVEL_COUNT]
}

pub fn wide_levels(levels: &[u8; LEVEL_COUNT]) -> [Level; LEVEL_COUNT]
    ensures { result ≡ levels.now }
{
    let mut turned = blank();
    for (i, level) in levels.iter().enumerate() {
        turned[i] = Level::from(*level);
    }
    turned
}

pub fn narrow_levels(levels: &[Level; LEVEL_COUNT]) -> [u8; LEVEL_COUNT]
    requires { Bytes levels.now }
    ensures { result ≡ levels.now }
{
    let mut turned = no_levels();
    for (i, level) in levels.iter().enumerate() {
        turned[i] = *level as u8;
    }
    turned
}
