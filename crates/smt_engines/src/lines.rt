// The commands, each a line. A name is written as a symbol of SMT-LIB 2.6.
ghost use Rattle.std.specs.Prelude.{[], ◌∷◌, ◌<◌};
ghost use Rattle.basics.specs.Write.{WroteAt};
ghost use Rattle.book.specs.Book.{types, constants, functions, terms, size};
ghost use Rattle.book.specs.Decode.{constant_of, function_of, literal_of};
ghost use Rattle.book_test.specs.Promise.{Promise, GoodLiteral};
ghost use Rattle.smt_engines.specs.Command.{Push, Pop, CheckSat, GetModel, DeclareSort, DeclareConstant, DeclareFunction, DeclareLiteral, script};
ghost use Rattle.smt_engines.specs.Written.{type_decl_of, signature_text};

use super::parts::{put_literal_name, put_symbol, put_type, put_types};
use basics::put_at;
use book::field;
use book::format::*;

// Four commands under the Dafny's names, a line each.
pub fn push(at: usize, out: &mut [u8]) -> usize
    ensures { WroteAt (script (Push ∷ [])) at out.old out.new result }
{
    put_at(b"(push 1)\n", at, out)
}

pub fn pop(at: usize, out: &mut [u8]) -> usize
    ensures { WroteAt (script (Pop ∷ [])) at out.old out.new result }
{
    put_at(b"(pop 1)\n", at, out)
}

pub fn check_sat(at: usize, out: &mut [u8]) -> usize
    ensures { WroteAt (script (CheckSat ∷ [])) at out.old out.new result }
{
    put_at(b"(check-sat)\n", at, out)
}

pub fn get_model(at: usize, out: &mut [u8]) -> usize
    ensures { WroteAt (script (GetModel ∷ [])) at out.old out.new result }
{
    put_at(b"(get-model)\n", at, out)
}

// User type k.
pub fn declare_sort(book: &[u8], k: usize, at: usize, out: &mut [u8]) -> usize
    requires { Promise book.now × (k < size book.now types) }
    ensures { WroteAt (script (DeclareSort (type_decl_of book.now k) ∷ [])) at out.old out.new result }
{
    let head = put_at(b"(declare-sort ", at, out);
    let name = put_symbol(book, TYPES, k, TYPE_NAME, head, out);
    put_at(b" 0)\n", name, out)
}

// Constant k. The declarations differ in what stands between their parts: a shared function would be longer than what it shares.
pub fn declare_constant(book: &[u8], k: usize, at: usize, out: &mut [u8]) -> usize
    requires { Promise book.now × (k < size book.now constants) }
    ensures { WroteAt (script (DeclareConstant (constant_of book.now k) ∷ [])) at out.old out.new result }
{
    let head = put_at(b"(declare-fun ", at, out);
    let name = put_symbol(book, CONSTANTS, k, CONSTANT_NAME, head, out);
    let none = put_at(b" () ", name, out);
    let typ = put_type(book, field(book, CONSTANTS, k, CONSTANT_TYPE), none, out);
    put_at(b")\n", typ, out)
}

// The head of function k's line: its name and its input types.
fn put_signature(book: &[u8], k: usize, at: usize, out: &mut [u8]) -> usize
    requires { Promise book.now × (k < size book.now functions) }
    ensures { WroteAt (signature_text book.now k) at out.old out.new result }
{
    let head = put_at(b"(declare-fun ", at, out);
    let name = put_symbol(book, FUNCTIONS, k, FUNCTION_NAME, head, out);
    let space = put_at(b" ", name, out);
    put_types(book, k, space, out)
}

// Function k.
pub fn declare_function(book: &[u8], k: usize, at: usize, out: &mut [u8]) -> usize
    requires { Promise book.now × (k < size book.now functions) }
    ensures { WroteAt (script (DeclareFunction (function_of book.now k) ∷ [])) at out.old out.new result }
{
    let head = put_signature(book, k, at, out);
    let space = put_at(b" ", head, out);
    let typ = put_type(book, field(book, FUNCTIONS, k, FUNCTION_TYPE), space, out);
    put_at(b")\n", typ, out)
}

// The literal that term t is.
pub fn declare_literal(book: &[u8], t: usize, at: usize, out: &mut [u8]) -> usize
    requires { Promise book.now × (t < size book.now terms) × GoodLiteral book.now t }
    ensures { WroteAt (script (DeclareLiteral (literal_of book.now t) ∷ [])) at out.old out.new result }
{
    let head = put_at(b"(declare-fun ", at, out);
    let name = put_literal_name(book, t, head, out);
    let none = put_at(b" () ", name, out);
    let typ = put_type(book, field(book, TERMS, t, LITERAL_TYPE), none, out);
    put_at(b")\n", typ, out)
}
