// The levels: one for each record, 0 for not declared.
ghost use Rattle.std.specs.Prelude.{◌≡◌, ◌<◌, length};
ghost use Rattle.rsolver.specs.LevelState.{join_at, count};
ghost use Rattle.levels.specs.Marks.{declared};

use session_levels::Level;

// Declares the record at a place. What is declared keeps its level.
pub fn mark(k: usize, level: Level, levels: &mut [Level])
    requires { k < length levels.old }
    ensures { levels.new ≡ join_at levels.old k level }
{
    if levels[k] == 0 {
        levels[k] = level;
    }
}

// 1 for a level, 0 for none.
fn declared(level: Level) -> usize
    ensures { result ≡ declared level }
{
    if level == 0 { 0 } else { 1 }
}

// How many records are declared. Summed without a branch: of `filter` and `count` the compiler makes a test of one level after the other,
// and a call counts several times.
pub fn declared_count(levels: &[Level]) -> usize
    ensures { result ≡ count levels.now }
{
    let mut n = 0;
    for level in levels {
        n += declared(*level);
    }
    n
}
