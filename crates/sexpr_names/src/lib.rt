#![tactic(auto)]
// SolverExpr.dfy: the strings of S(string), written into the free part of a buffer.
ghost use Rattle.std.specs.Prelude.{◌++◌};
ghost use Rattle.basics.specs.Text.{ascii};
ghost use Rattle.basics.specs.Write.{Wrote};
ghost use Rattle.book.specs.Book.{names, name_text};
ghost use Rattle.symbols.specs.Symbols.{symbol_text};
ghost use Rattle.book.specs.Decode.{type_of, literal_of};
ghost use Rattle.solver_expr.specs.SolverExpr.{name_to_string, type_to_string};
ghost use Rattle.solver_expr.specs.Lowering.{literal_name};
ghost use Rattle.solver_expr.specs.Values.{Ready, ReadyType, ReadyLiteral, text_of};
ghost use Rattle.sexpr_names.specs.Names.{ReadyName};

use basics::{clip, put, put_all, put_u64, sum};
use book::format::*;
use book::{SType, field};
use solver_expr::SName;

// Name n of a built-in operator where S(name) is printed: an empty one is ().
pub fn put_name(book: &[u8], n: usize, out: &mut [u8]) -> usize
    requires { Ready book.now names n }
    ensures { Wrote (name_to_string (name_text book.now n)) out.old out.new result }
{
    let s = book::name(book, n);
    if s.is_empty() {
        return put_all(b"()", out);
    }
    put_all(s, out)
}

// Name n of a type, constant or function, as a symbol of SMT-LIB 2.6.
pub fn put_symbol(book: &[u8], n: usize, out: &mut [u8]) -> usize
    requires { Ready book.now names n }
    ensures { Wrote (symbol_text (name_text book.now n)) out.old out.new result }
{
    symbols::put_symbol(book::name(book, n), out)
}

// SType.ToString: a name is raw.
pub fn put_type(book: &[u8], k: usize, out: &mut [u8]) -> usize
    requires { ReadyType book.now k }
    ensures { Wrote (type_to_string (type_of book.now k)) out.old out.new result }
{
    match SType::from(k) {
        SType::Bool => put_all(b"bool", out),
        SType::Int => put_all(b"int", out),
        SType::User(n) => put_all(book::name(book, field(book, TYPES, n, TYPE_NAME)), out),
    }
}

// The front of a literal's name: |s
fn literal_front(book: &[u8], n: usize, out: &mut [u8]) -> usize
    requires { Ready book.now names n }
    ensures { Wrote (ascii "|" ++ name_text book.now n) out.old out.new result }
{
    let bar = put(b'|', out);
    let k = clip(bar, out.len());
    let s = put_all(book::name(book, n), &mut out[k..]);
    sum(bar, s)
}

// The rest of it: :type|
fn literal_rest(book: &[u8], k: usize, out: &mut [u8]) -> usize
    requires { ReadyType book.now k }
    ensures { Wrote (ascii ":" ++ type_to_string (type_of book.now k) ++ ascii "|") out.old out.new result }
{
    let colon = put(b':', out);
    let at = clip(colon, out.len());
    let typ = put_type(book, k, &mut out[at..]);
    let n = sum(colon, typ);
    let end = clip(n, out.len());
    let bar = put(b'|', &mut out[end..]);
    sum(n, bar)
}

// CustomLiteralToSExprName of term t: |s:type|
pub fn put_literal(book: &[u8], t: usize, out: &mut [u8]) -> usize
    requires { ReadyLiteral book.now t }
    ensures { Wrote (literal_name (literal_of book.now t)) out.old out.new result }
{
    let front = literal_front(book, field(book, TERMS, t, LITERAL_NAME), out);
    let k = clip(front, out.len());
    let rest = literal_rest(book, field(book, TERMS, t, LITERAL_TYPE), &mut out[k..]);
    sum(front, rest)
}

// ToString of S(name)
pub fn name_to_string(book: &[u8], n: SName, tag: u64, out: &mut [u8]) -> usize
    requires { ReadyName book.now n }
    ensures { Wrote (name_to_string (text_of book.now tag n)) out.old out.new result }
{
    match n {
        SName::Word(w) => put_all(w.text(), out),
        SName::Operator(k) => put_name(book, k, out),
        SName::Symbol(k) => put_symbol(book, k, out),
        SName::Numeral(x) => put_u64(x, out),
        SName::Literal(t) => put_literal(book, t, out),
        SName::Tag => put_u64(tag, out),
    }
}
