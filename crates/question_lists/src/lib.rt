#![tactic(auto)]
// A list of questions that is handed over as bytes: how many they are, the node and the goal of each, and whether the book can be asked them.
ghost use Rattle.std.specs.Prelude.{◌≡◌, true, ◌<◌, ◌&&◌, leb, ltb, length};
ghost use Rattle.basics.specs.Lists.{all};
ghost use Rattle.book_test.specs.Promise.{Promise};
ghost use Rattle.number_lists.specs.Numbers.{numbers};
ghost use Rattle.question_lists.specs.Questions.{questions_of, question_at, is_inside, is_complete};

use book::count;
use book::format::{CONTEXTS, TERMS};
use engine::{ROOT, question};
use number_lists::{CUT, number_at, number_count};
use session_levels::blank;

// A question has two numbers.
const QUESTION: usize = 2;

// One that is cut short counts.
pub fn question_count(list: &[u8]) -> usize
    ensures { result ≡ length (questions_of (numbers list.now)) }
{
    number_count(list).div_ceil(QUESTION)
}

// Question i: a node, and a goal that is asked there.
#[derive(Clone, Copy)]
pub struct Question {
    pub node: usize,
    pub goal: usize,
}

pub fn question_at(list: &[u8], i: usize) -> Question
    requires { i < length (questions_of (numbers list.now)) }
    ensures node { result.node ≡ (question_at (questions_of (numbers list.now)) i).node }
    ensures goal { result.goal ≡ (question_at (questions_of (numbers list.now)) i).goal }
{
    let at = QUESTION * i;
    let node = number_at(list, at);
    let goal = if at + 1 < number_count(list) {
        number_at(list, at + 1)
    } else {
        CUT
    };
    Question { node, goal }
}

// The node and the goal of question i are among so many.
fn is_among(list: &[u8], i: usize, nodes: usize, terms: usize) -> bool
    requires { i < length (questions_of (numbers list.now)) }
    ensures { result ≡ (leb (question_at (questions_of (numbers list.now)) i).node nodes && ltb (question_at (questions_of (numbers list.now)) i).goal terms) }
{
    let asked = question_at(list, i);
    asked.node <= nodes && asked.goal < terms
}

// Each question's node and goal are in the book.
pub fn all_inside(book: &[u8], list: &[u8]) -> bool
    requires { Promise book.now }
    ensures { result ≡ all (questions_of (numbers list.now)) (is_inside book.now) }
{
    let nodes = count(book, CONTEXTS);
    let terms = count(book, TERMS);
    (0..question_count(list)).all(|i| is_among(list, i, nodes, terms))
}

// No question meets an axiom without a term. One session is moved through the list: as long as none does, its levels are those of a fresh
// one that is moved to the present node.
pub fn all_complete(book: &[u8], list: &[u8]) -> bool
    requires { Promise book.now × (all (questions_of (numbers list.now)) (is_inside book.now) ≡ true) }
    ensures { result ≡ all (questions_of (numbers list.now)) (is_complete book.now) }
{
    let mut levels = blank();
    let mut at = ROOT;
    for i in 0..question_count(list) {
        let asked = question_at(list, i);
        let mut nowhere = [0; 0];
        let done = question(book, at, asked.node, asked.goal, &mut levels, &mut nowhere);
        if done.missing {
            return false;
        }
        at = asked.node;
    }
    true
}
