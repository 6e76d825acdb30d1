// The call that tests a list of nodes.
ghost use Rattle.std.specs.Prelude.{◌≡◌};
ghost use Rattle.nodes_test.specs.NodesTest.{nodes_tested_value, nodes_test_call};
ghost use Rattle.leskofar.specs.Exports.{nodes_answered};

use super::ACCEPTED;
use book::Refusal;
use nodes_test::nodes_test;
use refusal_numbers::number;

// What the test leads to: each node passes, or one fails.
const PASS: u32 = 0;

const FAILS: u32 = 1;

// The answer: 0, what the test leads to and the first position that fails; or the refusal's number.
#[repr(C)]
#[derive(Clone, Copy)]
pub struct NodesAnswered {
    pub refusal: u32,
    pub result: u32,
    pub position: u64,
}

fn answer(t: Result<Option<usize>, Refusal>) -> NodesAnswered
    ensures { result ≡ nodes_answered (nodes_tested_value t) }
{
    match t {
        Ok(None) => NodesAnswered {
            refusal: ACCEPTED,
            result: PASS,
            position: 0,
        },
        Ok(Some(n)) => NodesAnswered {
            refusal: ACCEPTED,
            result: FAILS,
            position: n as u64,
        },
        Err(r) => NodesAnswered {
            refusal: number(r),
            result: 0,
            position: 0,
        },
    }
}

#[unsafe(no_mangle)]
pub extern "C" fn leskofar_nodes_test(
    book: &[u8],
    scratch: &mut [u8],
    nodes: &[u8],
) -> NodesAnswered
    ensures answer { result ≡ nodes_answered (nodes_test_call book.now scratch.old nodes.now).answer }
    ensures scratch { scratch.new ≡ (nodes_test_call book.now scratch.old nodes.now).scratch }
{
    answer(nodes_test(book, scratch, nodes))
}
