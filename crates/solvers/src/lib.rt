#![tactic(auto)]
// Solvers.dfy: the session. The definitions are in specs/; the calls are in the crates session_test, moves and replies, the stack rule in stack_rule.
ghost use Rattle.std.specs.Prelude.{◌≡◌};
ghost use Rattle.book_test.specs.BookTest.{book_test_call};
ghost use Rattle.solvers.specs.Returned.{outcome_of};
ghost use Rattle.solvers.specs.Session.{fresh_session};

use book::Refusal;
use session_levels::{LEVEL_COUNT, Level};

// What an open question waits for.
#[derive(Clone, Copy)]
pub enum Owed {
    Nothing,
    Reply,
    Model,
}

// A session between calls: the present node, the open question's goal or 0, what is owed, and the level of each record.
#[derive(Clone, Copy)]
pub struct Session {
    pub node: u32,
    pub goal: u32,
    pub owed: Owed,
    pub levels: [Level; LEVEL_COUNT],
}

// The narrow kind of a session, with one byte for each level: the two turns take and give it, and no other call. A type of its own: the
// theorems of specs/ (Narrow) name both records.
#[derive(Clone, Copy)]
pub struct NarrowSession {
    pub node: u32,
    pub goal: u32,
    pub owed: Owed,
    pub levels: [u8; LEVEL_COUNT],
}

// The answer of an accepted move, ask, reply or model: the text's length, and with a reason the reason's too.
#[derive(Clone, Copy)]
pub enum Answer {
    Written(usize),
    Proved(usize),
    Unproved(usize, usize),
}

// What a call by value returns. A refused one returns the session as received.
#[derive(Clone, Copy)]
pub struct Called {
    pub answer: Result<Answer, Refusal>,
    pub session: Session,
}

// The goal where no question is open.
pub const NO_GOAL: u32 = 0;

impl Session {
    // At the root, with nothing declared.
    pub fn fresh() -> Session
        ensures { result ≡ fresh_session }
    {
        Session {
            node: 0,
            goal: NO_GOAL,
            owed: Owed::Nothing,
            levels: session_levels::blank(),
        }
    }
}
