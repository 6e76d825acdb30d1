#![tactic(auto)]
// The byte image of a session, which the host holds (docs/SESSION.md): kind, node, goal and what is owed, then two bytes for each level.
// The narrow kind has the same four words.
ghost use Rattle.std.specs.Prelude.{◌≡◌, ◌++◌, ◌+◌, ◌*◌, ◌≤◌, length, get_or, take, drop};
ghost use Rattle.basics.specs.Write.{WroteAt};
ghost use Rattle.book.specs.Book.{word};
ghost use Rattle.rsolver.specs.LevelState.{level_count};
ghost use Rattle.solvers.specs.Image.{image_size, head_size, owed_of, head_of, level_bytes, levels_in, no_session, is_kind, read_image, write_image};
ghost use Rattle.images.specs.Heads.{ReadHead};

use basics::put_word;
use session_levels::{LEVEL_COUNT, Level};
use solvers::{NO_GOAL, Owed, Session};

// The words of an image, and what stands behind them.
const KIND_AT: usize = 0;

pub const NODE_AT: usize = 4;

pub const GOAL_AT: usize = 8;

pub const OWED_AT: usize = 12;

pub const LEVELS_AT: usize = 16;

// A level's bytes.
const LEVEL_BYTES: usize = 2;

pub const IMAGE: usize = LEVELS_AT + LEVEL_BYTES * LEVEL_COUNT;

// The layout with two bytes for each level.
const KIND: u32 = 2;

// What is owed, as a number. No number is larger than the last.
const REPLY: u32 = Owed::Reply as u32;

const MODEL: u32 = Owed::Model as u32;

// The session of an image that is none: no book has its node.
pub const NO_NODE: u32 = 0xFFFF_FFFF;

// What the words behind the kind say, in an image of either kind.
#[derive(Clone, Copy)]
pub struct Head {
    pub node: u32,
    pub goal: u32,
    pub owed: Owed,
}

pub fn word(image: &[u8], at: usize) -> u32
    requires { at + 4 ≤ length image.now }
    ensures { result ≡ word image.now at }
{
    book::word(image, at) as u32
}

// Total, and no TryFrom: `is_kind` has tested the number with the rest of the head.
pub fn owed_of(n: u32) -> Owed
    ensures { result ≡ owed_of n }
{
    match n {
        REPLY => Owed::Reply,
        MODEL => Owed::Model,
        _ => Owed::Nothing,
    }
}

// Bytes of this kind and size, with a known number for what is owed.
pub fn is_kind(image: &[u8], kind: u32, size: usize) -> bool
    requires { head_size ≤ size }
    ensures { result ≡ is_kind kind size image.now }
{
    image.len() == size && word(image, KIND_AT) == kind && word(image, OWED_AT) <= MODEL
}

// The head of an image of this kind and size; none of other bytes.
pub fn read_head(image: &[u8], kind: u32, size: usize) -> Option<Head>
    requires { head_size ≤ size }
    ensures { ReadHead kind size image.now result }
{
    if !is_kind(image, kind, size) {
        return None;
    }
    Some(Head {
        node: word(image, NODE_AT),
        goal: word(image, GOAL_AT),
        owed: owed_of(word(image, OWED_AT)),
    })
}

pub fn no_session() -> Session
    ensures { result ≡ no_session }
{
    Session {
        node: NO_NODE,
        goal: NO_GOAL,
        owed: Owed::Nothing,
        levels: session_levels::blank(),
    }
}

// The level whose bytes stand at a place, the low one first.
fn level_at(image: &[u8], at: usize) -> Level
    requires { at + 2 ≤ length image.now }
    ensures { result ≡ get_or image.now at 0 + 256 * get_or image.now (at + 1) 0 }
{
    Level::from_le_bytes([image[at], image[at + 1]])
}

fn levels_of(image: &[u8]) -> [Level; LEVEL_COUNT]
    requires { length image.now ≡ image_size }
    ensures { result ≡ levels_in (drop head_size image.now) }
{
    let mut levels = session_levels::blank();
    for (i, level) in levels.iter_mut().enumerate() {
        *level = level_at(image, LEVELS_AT + LEVEL_BYTES * i);
    }
    levels
}

// Any bytes are read. Those that are no image give a session that every call refuses, and no `None`: the refusals of the book and of the
// call's numbers come before it.
pub fn load(image: &[u8]) -> Session
    ensures { result ≡ read_image image.now }
{
    let Some(head) = read_head(image, KIND, IMAGE) else {
        return no_session();
    };
    Session {
        node: head.node,
        goal: head.goal,
        owed: head.owed,
        levels: levels_of(image),
    }
}

// Writes the four words, and answers the place behind them.
pub fn put_head(kind: u32, head: Head, image: &mut [u8]) -> usize
    ensures { WroteAt (head_of kind head.node head.goal head.owed) 0 image.old image.new result }
{
    let node_at = put_word(kind as usize, KIND_AT, image);
    let goal_at = put_word(head.node as usize, node_at, image);
    let owed_at = put_word(head.goal as usize, goal_at, image);
    put_word(head.owed as usize, owed_at, image)
}

// Writes the levels behind the head, the low byte of each first. By index: each level has two places of its own in the image.
fn put_levels(levels: &[Level], image: &mut [u8])
    requires { (length levels.now ≡ level_count) × (length image.old ≡ image_size) }
    ensures { image.new ≡ take head_size image.old ++ level_bytes levels.now }
{
    for (i, level) in levels.iter().enumerate() {
        let [low, high] = level.to_le_bytes();
        let at = LEVELS_AT + LEVEL_BYTES * i;
        image[at] = low;
        image[at + 1] = high;
    }
}

pub fn save(s: &Session, image: &mut [u8])
    requires { length image.old ≡ image_size }
    ensures { image.new ≡ write_image s.now }
{
    let head = Head {
        node: s.node,
        goal: s.goal,
        owed: s.owed,
    };
    put_head(KIND, head, image);
    put_levels(&s.levels, image);
}
