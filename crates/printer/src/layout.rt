// SExprPrintConfig, and what stands before each part of a row.
ghost use Rattle.solver_expr.specs.SolverExpr.{space};
ghost use Rattle.sexpr_names.specs.Names.{ReadyName};
ghost use Rattle.printer.specs.Printing.{WroteIn, Behind, lead, open_part, name_part};

use basics::{clip, put, spaces, sum};
use sexpr_names::name_to_string;
use solver_expr::SName;

const NEWLINE: u8 = 0x0A;

// What a nested expression is indented by.
const STEP: usize = 2;

#[derive(Clone, Copy)]
pub struct SExprPrintConfig {
    pub newlines: bool,
    pub indent: usize,
}

impl SExprPrintConfig {
    pub fn space(self, out: &mut [u8]) -> usize
        ensures { WroteIn self.newlines self.indent space out.old out.new result }
    {
        if self.newlines {
            let line = put(NEWLINE, out);
            let k = clip(line, out.len());
            let indent = spaces(self.indent, &mut out[k..]);
            sum(line, indent)
        } else {
            put(b' ', out)
        }
    }
}

// The indent of the parts behind part i: ExtraIdent after the head.
pub fn indent_behind(i: usize, newlines: bool, indent: usize) -> usize
    ensures { Behind i newlines indent result }
{
    if newlines & (i == 0) {
        sum(indent, STEP)
    } else {
        indent
    }
}

// What stands before part i: nothing before the head, a space before the others.
fn lead(i: usize, newlines: bool, indent: usize, out: &mut [u8]) -> usize
    ensures { WroteIn newlines indent (lead i) out.old out.new result }
{
    if i == 0 {
        0
    } else {
        SExprPrintConfig { newlines, indent }.space(out)
    }
}

// Part i where it is a name.
pub fn put_part(
    book: &[u8],
    n: SName,
    tag: u64,
    i: usize,
    newlines: bool,
    indent: usize,
    out: &mut [u8],
) -> usize
    requires { ReadyName book.now n }
    ensures { WroteIn newlines indent (name_part book.now tag n i) out.old out.new result }
{
    let before = lead(i, newlines, indent, out);
    let k = clip(before, out.len());
    let name = name_to_string(book, n, tag, &mut out[k..]);
    sum(before, name)
}

// Part i where it is a row: what stands before it, and its parenthesis. Not inlined: its values would cost stack in each nested call.
#[inline(never)]
pub fn open_part(i: usize, newlines: bool, indent: usize, out: &mut [u8]) -> usize
    ensures { WroteIn newlines indent (open_part i) out.old out.new result }
{
    let before = lead(i, newlines, indent, out);
    let k = clip(before, out.len());
    let open = put(b'(', &mut out[k..]);
    sum(before, open)
}
