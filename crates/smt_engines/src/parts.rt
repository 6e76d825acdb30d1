// S-expressions and names as parts of a command, at a place of the buffer.
ghost use Rattle.std.specs.Prelude.{◌+◌, ◌<◌};
ghost use Rattle.basics.specs.Write.{WroteAt};
ghost use Rattle.symbols.specs.Symbols.{symbol_text};
ghost use Rattle.book.specs.Book.{types, functions, terms, size, field, name_text, user_types};
ghost use Rattle.book.specs.Laid.{section_at};
ghost use Rattle.book.specs.Decode.{literal_of};
ghost use Rattle.book_test.specs.Promise.{Promise, GoodLiteral};
ghost use Rattle.records.specs.Named.{Named};
ghost use Rattle.solver_expr.specs.SolverExpr.{flat};
ghost use Rattle.solver_expr.specs.Lowering.{literal_name};
ghost use Rattle.printer.specs.Printing.{ReadyExpr, expr_text};
ghost use Rattle.smt_engines.specs.Written.{type_text, types_text};

use basics::{clip, sum};
use book::field;
use printer::{SExprPrintConfig, to_string};
use sexpr_names::put_literal;
use solver_expr::{SExpr, SRow, type_to_sexpr};

// The number for %tag where none is printed.
const NO_TAG: u64 = 0;

// ToString of e, in one line.
pub fn put_sexpr(book: &[u8], e: SExpr, tag: u64, at: usize, out: &mut [u8]) -> usize
    requires { ReadyExpr book.now e }
    ensures { WroteAt (expr_text book.now tag e flat) at out.old out.new result }
{
    let k = clip(at, out.len());
    let config = SExprPrintConfig {
        newlines: false,
        indent: 0,
    };
    let n = to_string(book, e, tag, config, &mut out[k..]);
    sum(at, n)
}

// SType.ToSExpr, printed.
pub fn put_type(book: &[u8], typ: usize, at: usize, out: &mut [u8]) -> usize
    requires { Promise book.now × (typ < user_types + size book.now types) }
    ensures { WroteAt (type_text book.now typ) at out.old out.new result }
{
    let e = type_to_sexpr(book, typ);
    put_sexpr(book, e, NO_TAG, at, out)
}

// TypesToSExpr of function k's inputs, printed.
pub fn put_types(book: &[u8], k: usize, at: usize, out: &mut [u8]) -> usize
    requires { Promise book.now × (k < size book.now functions) }
    ensures { WroteAt (types_text book.now k) at out.old out.new result }
{
    let e = SExpr::PP(SRow::Types(k));
    put_sexpr(book, e, NO_TAG, at, out)
}

// The name whose number is field i of record k, as a symbol.
pub fn put_symbol(
    book: &[u8],
    section: usize,
    k: usize,
    i: usize,
    at: usize,
    out: &mut [u8],
) -> usize
    requires { Named book.now section k i }
    ensures { WroteAt (symbol_text (name_text book.now (field book.now (section_at section) k i))) at out.old out.new result }
{
    let name = field(book, section, k, i);
    let from = clip(at, out.len());
    let n = sexpr_names::put_symbol(book, name, &mut out[from..]);
    sum(at, n)
}

// CustomLiteralToSExprName.
pub fn put_literal_name(book: &[u8], t: usize, at: usize, out: &mut [u8]) -> usize
    requires { Promise book.now × (t < size book.now terms) × GoodLiteral book.now t }
    ensures { WroteAt (literal_name (literal_of book.now t)) at out.old out.new result }
{
    let k = clip(at, out.len());
    let n = put_literal(book, t, &mut out[k..]);
    sum(at, n)
}
