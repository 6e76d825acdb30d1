#![tactic(auto)]
// RSolver.dfy: Extend, ExtendWithEquality, Record and RecordTracePoint, on books that are written here; and below them the calls that append
// a name, a constant, a term or a node. The book received is only read.
mod appending;
mod extending;
mod probe_rows;
mod probing;
mod record_calls;
mod terms;

pub use extending::{extend, extend_with_equality};
pub use probing::{record, record_trace_point};
pub use record_calls::{append_constant, append_name, append_node};
pub use terms::{TermFields, append_term};

// The answer of a call that is not refused: the new record's number and the new book's length.
#[derive(Clone, Copy)]
pub struct Appended {
    pub number: u32,
    pub length: usize,
}
