#![tactic(auto)]
// What C links: the public calls, on numbers and byte slices. include/leskofar.h says what each does.
ghost use Rattle.std.specs.Prelude.{◌≡◌};
ghost use Rattle.book_test.specs.BookTest.{tested_value, book_test_call};
ghost use Rattle.leskofar.specs.Exports.{refusal_of};

use book::Refusal;
use refusal_numbers::number;

mod audit_call;
mod node_calls;
mod print_calls;
mod session_calls;
mod writer_calls;

pub use audit_call::{AuditAnswered, leskofar_audit};
pub use node_calls::{NodesAnswered, leskofar_nodes_test};
pub use print_calls::{Told, leskofar_listing, leskofar_operator, leskofar_print, leskofar_trace};
pub use session_calls::{
    Answered, leskofar_ask, leskofar_fresh, leskofar_model, leskofar_move, leskofar_narrow,
    leskofar_reply, leskofar_widen,
};
pub use writer_calls::{
    AppendAnswered, leskofar_append_constant, leskofar_append_name, leskofar_append_node,
    leskofar_append_term, leskofar_extend, leskofar_extend_with_equality, leskofar_record,
    leskofar_record_trace_point,
};

// The answer of an accepted call where a refusal's number would stand.
const ACCEPTED: u32 = 0;

// The refusal's number, or ACCEPTED.
fn refusal(answer: Result<(), Refusal>) -> u32
    ensures { result ≡ refusal_of (tested_value answer) }
{
    match answer {
        Ok(()) => ACCEPTED,
        Err(why) => number(why),
    }
}

#[unsafe(no_mangle)]
pub extern "C" fn leskofar_book_test(book: &[u8], scratch: &mut [u8]) -> u32
    ensures { (result ≡ refusal_of (book_test_call book.now scratch.old).answer) × (scratch.new ≡ (book_test_call book.now scratch.old).scratch) }
{
    refusal(book_test::book_test(book, scratch))
}
