// ToString of rows.
ghost use Rattle.sexpr_rows.specs.Rows.{ReadyRow};
ghost use Rattle.std.specs.Prelude.{◌≡◌};
ghost use Rattle.sexpr_names.specs.Names.{ReadyName};
ghost use Rattle.sexpr_rows.specs.declared.Turn.TheVariants.{Name};
ghost use Rattle.solver_expr.specs.declared.SName.{SName};
ghost use Rattle.printer.specs.Printing.{WroteIn, ReadyExpr, name_part, row_text, expr_text};

use super::SExprPrintConfig;
use super::layout::{indent_behind, open_part, put_part};
use basics::{clip, put, repeat, sum};
use sexpr_names::name_to_string;
use sexpr_rows::{Turn, turn_of};
use solver_expr::{SExpr, SRow};

// Part i where its turn is a name. Not inlined, and the turn is handed on whole: the name's own place would cost stack in each nested call. So a turn that is no name is answered 0, and not refused.
#[inline(never)]
fn put_name(
    book: &[u8],
    turn: Turn,
    tag: u64,
    i: usize,
    newlines: bool,
    indent: usize,
    out: &mut [u8],
) -> usize
    requires { (n : SName) → turn ≡ Name n → ReadyName book.now n }
    ensures { (n : SName) → turn ≡ Name n → WroteIn newlines indent (name_part book.now tag n i) out.old out.new result }
{
    match turn {
        Turn::Name(n) => put_part(book, n, tag, i, newlines, indent, out),
        _ => 0,
    }
}

// The parts of a row, and the parenthesis that closes it. A row that is the last part is printed in its turn: its parenthesis closes with the others, and only a row before other parts costs a call. The layout's two numbers are handed on apart: each nested call is to keep its 192 bytes of stack.
fn parts_to_string(
    book: &[u8],
    row: SRow,
    tag: u64,
    newlines: bool,
    indent: usize,
    out: &mut [u8],
) -> usize
    requires { ReadyRow book.now row }
    ensures { WroteIn newlines indent (row_text book.now tag row) out.old out.new result }
{
    let mut p = row;
    let mut i = 0;
    let mut at = indent;
    let mut pending = 1;
    let mut n = 0;
    let mut turn = turn_of(book, p, i);
    loop {
        let k = clip(n, out.len());
        match turn {
            Turn::Name(_) => {
                let m = put_name(book, turn, tag, i, newlines, at, &mut out[k..]);
                n = sum(n, m);
                at = indent_behind(i, newlines, at);
                i += 1;
                turn = turn_of(book, p, i);
            }
            Turn::Row(q) => {
                let m = open_part(i, newlines, at, &mut out[k..]);
                n = sum(n, m);
                let k2 = clip(n, out.len());
                let m2 = parts_to_string(book, q, tag, newlines, at, &mut out[k2..]);
                n = sum(n, m2);
                at = indent_behind(i, newlines, at);
                i += 1;
                turn = turn_of(book, p, i);
            }
            Turn::Last(q) => {
                p = q;
                let m = open_part(i, newlines, at, &mut out[k..]);
                n = sum(n, m);
                pending = sum(pending, 1);
                i = 0;
                turn = turn_of(book, p, i);
            }
            Turn::End => {
                let m = repeat(b')', pending, &mut out[k..]);
                return sum(n, m);
            }
        }
    }
}

pub fn to_string(book: &[u8], e: SExpr, tag: u64, config: SExprPrintConfig, out: &mut [u8]) -> usize
    requires { ReadyExpr book.now e }
    ensures { WroteIn config.newlines config.indent (expr_text book.now tag e) out.old out.new result }
{
    match e {
        SExpr::S(n) => name_to_string(book, n, tag, out),
        SExpr::PP(p) => {
            let open = put(b'(', out);
            let k = clip(open, out.len());
            let rest = parts_to_string(book, p, tag, config.newlines, config.indent, &mut out[k..]);
            sum(open, rest)
        }
    }
}
