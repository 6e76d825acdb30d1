// The call print.
ghost use Rattle.std.specs.Prelude.{◌≡◌};
ghost use Rattle.solver_expr.specs.Print.{printed_value, print_call};
ghost use Rattle.printing.specs.Calls.{layout_of};

use book::format::TERMS;
use book::{Refusal, count};
use book_test::book_test;
use printer::{SExprPrintConfig, to_string};
use solver_expr::{fitted, to_sexpr};

pub fn print(
    book: &[u8],
    scratch: &mut [u8],
    t: usize,
    tag: u64,
    newlines: bool,
    indent: u64,
    text: &mut [u8],
) -> Result<usize, Refusal>
    ensures answer { printed_value result ≡ (print_call book.now scratch.old t tag (layout_of newlines indent) text.old).answer }
    ensures text { text.new ≡ (print_call book.now scratch.old t tag (layout_of newlines indent) text.old).text }
    ensures scratch { scratch.new ≡ (print_call book.now scratch.old t tag (layout_of newlines indent) text.old).scratch }
{
    book_test(book, scratch)?;
    if count(book, TERMS) <= t {
        return Err(Refusal::NotInBook);
    }
    let e = to_sexpr(book, t);
    let config = SExprPrintConfig {
        newlines,
        indent: indent as usize,
    };
    fitted(|out| to_string(book, e, tag, config, out), text)
}
