// The commands that assert a term. `tag` is what %tag prints.
ghost use Rattle.std.specs.Prelude.{[], ◌∷◌, ◌++◌, ◌<◌};
ghost use Rattle.basics.specs.Text.{ascii};
ghost use Rattle.basics.specs.Write.{WroteAt};
ghost use Rattle.book.specs.Book.{terms, size};
ghost use Rattle.book.specs.Decode.{term};
ghost use Rattle.book_test.specs.Promise.{Promise};
ghost use Rattle.solver_expr.specs.SolverExpr.{flat};
ghost use Rattle.printer.specs.Printing.{ReadyExpr, expr_text};
ghost use Rattle.smt_engines.specs.Command.{Assume, AssumeNot, script};

use super::parts::put_sexpr;
use basics::put_at;
use solver_expr::{SExpr, to_sexpr};

// The line that asserts e.
fn put_assertion(book: &[u8], e: SExpr, tag: usize, at: usize, out: &mut [u8]) -> usize
    requires { ReadyExpr book.now e }
    ensures { WroteAt (ascii "(assert " ++ expr_text book.now tag e flat ++ ascii ")\n") at out.old out.new result }
{
    let head = put_at(b"(assert ", at, out);
    let body = put_sexpr(book, e, tag as u64, head, out);
    put_at(b")\n", body, out)
}

// Term t.
pub fn assume(book: &[u8], t: usize, tag: usize, at: usize, out: &mut [u8]) -> usize
    requires { Promise book.now × (t < size book.now terms) }
    ensures { WroteAt (script (Assume (term book.now t) tag ∷ [])) at out.old out.new result }
{
    put_assertion(book, to_sexpr(book, t), tag, at, out)
}

// Term t negated.
pub fn assume_not(book: &[u8], t: usize, tag: usize, at: usize, out: &mut [u8]) -> usize
    requires { Promise book.now × (t < size book.now terms) }
    ensures { WroteAt (script (AssumeNot (term book.now t) tag ∷ [])) at out.old out.new result }
{
    put_assertion(book, SExpr::negation(t), tag, at, out)
}
