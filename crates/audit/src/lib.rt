#![tactic(auto)]
// Whether a script of another writer leaves live, at each check-sat, the commands that the book gives for its question.
ghost use Rattle.std.specs.Prelude.{◌≡◌};
ghost use Rattle.book.specs.Refusal.{number};
ghost use Rattle.book_test.specs.BookTest.{book_test_call};
ghost use Rattle.book_test.specs.Promise.{Promise};
ghost use Rattle.number_lists.specs.Numbers.{numbers};
ghost use Rattle.audit.specs.Audit.{audited_value, audit_call};
ghost use Rattle.audit.specs.Ladder.{is_long, with_script, checks_in, audit_in};
ghost use Rattle.audit.specs.Comparable.{Taken};

use book::Refusal;
use book_test::book_test;
use compare::compare;
use live_lines::SCRIPT_MOST;
use question_lists::{all_complete, all_inside, question_count};
use refusal_numbers::number;
use script_checks::count_checks;
use tags::has_tag;

mod compare;
mod tags;

// A refusal of the book. A long script is refused before a field that is out of range, and whatever comes behind that.
fn with_script(why: Refusal, script: &[u8]) -> Refusal
    ensures { number result ≡ with_script (is_long script.now) (number why) }
{
    if script.len() <= SCRIPT_MOST {
        return why;
    }
    if number(why) < number(Refusal::CountOverLimit) {
        return why;
    }
    Refusal::CountOverLimit
}

// The whole script is ours and has a check-sat for each question, before anything is compared.
fn audit_checks(book: &[u8], questions: &[u8], script: &[u8]) -> Result<Option<usize>, Refusal>
    requires { Taken book.now (numbers questions.now) script.now }
    ensures { audited_value result ≡ checks_in book.now (numbers questions.now) script.now }
{
    let Some(checks) = count_checks(script) else {
        return Err(Refusal::ForeignLine);
    };
    if checks != question_count(questions) {
        return Err(Refusal::ChecksDiffer);
    }
    Ok(compare(book, questions, script))
}

// In a book that passed its test.
fn audit_in(book: &[u8], questions: &[u8], script: &[u8]) -> Result<Option<usize>, Refusal>
    requires { Promise book.now }
    ensures { audited_value result ≡ audit_in book.now (numbers questions.now) script.now }
{
    if SCRIPT_MOST < script.len() {
        return Err(Refusal::CountOverLimit);
    }
    if !all_inside(book, questions) {
        return Err(Refusal::NotInBook);
    }
    if !all_complete(book, questions) {
        return Err(Refusal::MissingAxiom);
    }
    if has_tag(book) {
        return Err(Refusal::TagInBook);
    }
    audit_checks(book, questions, script)
}

// The first check-sat that differs, counted from 1; none where each agrees. Any book, scratch, questions and script are taken. The
// questions are bytes, four for a number, node and goal in turn.
pub fn audit(
    book: &[u8],
    scratch: &mut [u8],
    questions: &[u8],
    script: &[u8],
) -> Result<Option<usize>, Refusal>
    ensures { (audited_value result ≡ (audit_call book.now scratch.old questions.now script.now).answer) × (scratch.new ≡ (audit_call book.now scratch.old questions.now script.now).scratch) }
{
    match book_test(book, scratch) {
        Err(why) => Err(with_script(why, script)),
        Ok(()) => audit_in(book, questions, script),
    }
}
