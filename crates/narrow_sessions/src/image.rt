// The byte image of the narrow kind: the four words, then a byte for each level.
ghost use Rattle.std.specs.Prelude.{◌≡◌, length, drop};
ghost use Rattle.solvers.specs.Image.{head_size};
ghost use Rattle.solvers.specs.Narrow.{narrow_size, no_narrow, read_narrow, write_narrow};
ghost use Rattle.narrow_sessions.specs.Turned.{for_room};

use super::level_turns::no_levels;
use basics::put_at;
use images::{Head, LEVELS_AT, NO_NODE, put_head, read_head};
use session_levels::LEVEL_COUNT;
use solvers::{NO_GOAL, NarrowSession, Owed};

pub const NARROW_IMAGE: usize = LEVELS_AT + LEVEL_COUNT;

// The layout with one byte for each level.
const NARROW_KIND: u32 = 1;

fn no_narrow() -> NarrowSession
    ensures { result ≡ no_narrow }
{
    NarrowSession {
        node: NO_NODE,
        goal: NO_GOAL,
        owed: Owed::Nothing,
        levels: no_levels(),
    }
}

fn levels_in(image: &[u8]) -> [u8; LEVEL_COUNT]
    requires { length image.now ≡ narrow_size }
    ensures { result ≡ drop head_size image.now }
{
    let mut levels = no_levels();
    levels.copy_from_slice(&image[LEVELS_AT..]);
    levels
}

// Any bytes are read. Those that are no image give a session that every turn refuses.
pub fn load_narrow(image: &[u8]) -> NarrowSession
    ensures { result ≡ read_narrow image.now }
{
    let Some(head) = read_head(image, NARROW_KIND, NARROW_IMAGE) else {
        return no_narrow();
    };
    NarrowSession {
        node: head.node,
        goal: head.goal,
        owed: head.owed,
        levels: levels_in(image),
    }
}

// Writes the image where there is room for just that.
pub fn save_narrow(s: &NarrowSession, image: &mut [u8])
    ensures { image.new ≡ for_room (length image.old) narrow_size (write_narrow s.now) image.old }
{
    if image.len() != NARROW_IMAGE {
        return;
    }
    let head = Head {
        node: s.node,
        goal: s.goal,
        owed: s.owed,
    };
    let levels_at = put_head(NARROW_KIND, head, image);
    put_at(&s.levels, levels_at, image);
}
