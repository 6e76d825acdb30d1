// What a term's text holds besides other terms: types, variables, literals and numbers.
ghost use Rattle.std.specs.Prelude.{◌+◌, ◌++◌, ◌<◌, ◌≤◌};
ghost use Rattle.basics.specs.Write.{WroteAt};
ghost use Rattle.book.specs.Book.{types, constants, terms, size, field, user_types};
ghost use Rattle.book.specs.Decode.{type_of, constant_of, literal_of};
ghost use Rattle.book_test.specs.Promise.{Promise, Range, GoodLiteral};
ghost use Rattle.solver_expr.specs.SolverExpr.{type_to_string};
ghost use Rattle.rsolver.specs.Listing.{bound_var_to_string, custom_literal_to_string, quantifier_opening};
ghost use Rattle.listing_terms.specs.Texts.{lead, closing, boolean_text, integer_text, operator_text, universal, variables_text};

use basics::{clip, put_at, put_int, repeat, sum};
use book::format::{
    BOOLEAN_VALUE, CONSTANT_NAME, CONSTANT_TYPE, CONSTANTS, FUNCTION_NAME, FUNCTIONS, KIND, LISTED,
    LISTS, LITERAL_NAME, LITERAL_TYPE, OPERATOR, QUANTIFIER_UNIVERSAL, TERMS,
};
use book::{Kind, field};
use records::named;
use sexpr_names::put_type;
use solver_expr::integer_bits;

// SType.ToString.
pub fn type_to_string(book: &[u8], typ: usize, at: usize, out: &mut [u8]) -> usize
    requires { Promise book.now × (typ < user_types + size book.now types) }
    ensures { WroteAt (type_to_string (type_of book.now typ)) at out.old out.new result }
{
    let k = clip(at, out.len());
    let n = put_type(book, typ, &mut out[k..]);
    sum(at, n)
}

// A name, what stands behind it, and a type.
fn put_typed(book: &[u8], name: &[u8], colon: &[u8], typ: usize, at: usize, out: &mut [u8]) -> usize
    requires { Promise book.now × (typ < user_types + size book.now types) }
    ensures { WroteAt (name.now ++ colon.now ++ type_to_string (type_of book.now typ)) at out.old out.new result }
{
    let named = put_at(name, at, out);
    let behind = put_at(colon, named, out);
    type_to_string(book, typ, behind, out)
}

// BoundVarToString of constant v.
pub fn bound_var_to_string(book: &[u8], v: usize, at: usize, out: &mut [u8]) -> usize
    requires { Promise book.now × (v < size book.now constants) }
    ensures { WroteAt (bound_var_to_string (constant_of book.now v)) at out.old out.new result }
{
    let name = named(book, CONSTANTS, v, CONSTANT_NAME);
    let typ = field(book, CONSTANTS, v, CONSTANT_TYPE);
    put_typed(book, name, b": ", typ, at, out)
}

// What stands before part i of a list.
pub fn put_lead(i: usize, at: usize, out: &mut [u8]) -> usize
    ensures { WroteAt (lead i) at out.old out.new result }
{
    if i == 0 {
        return at;
    }
    put_at(b", ", at, out)
}

// BoundVarsToString of the constants in a range of lists.
pub fn bound_vars_to_string(
    book: &[u8],
    start: usize,
    count: usize,
    at: usize,
    out: &mut [u8],
) -> usize
    requires { Promise book.now × Range book.now (size book.now constants) start count }
    ensures { WroteAt (variables_text book.now start count) at out.old out.new result }
{
    let mut done = at;
    for i in 0..count {
        let v = field(book, LISTS, start + i, LISTED);
        let next = put_lead(i, done, out);
        done = bound_var_to_string(book, v, next, out);
    }
    done
}

// Boolean t.
pub fn put_boolean(book: &[u8], t: usize, at: usize, out: &mut [u8]) -> usize
    requires { Promise book.now × (t < size book.now terms) }
    ensures { WroteAt (boolean_text book.now t) at out.old out.new result }
{
    if field(book, TERMS, t, BOOLEAN_VALUE) == 0 {
        return put_at(b"false", at, out);
    }
    put_at(b"true", at, out)
}

// Integer t.
pub fn put_integer(book: &[u8], t: usize, at: usize, out: &mut [u8]) -> usize
    requires { Promise book.now × (t < size book.now terms) }
    ensures { WroteAt (integer_text book.now t) at out.old out.new result }
{
    let k = clip(at, out.len());
    let n = put_int(integer_bits(book, t), &mut out[k..]);
    sum(at, n)
}

// CustomLiteral t: its text, a colon and its type.
pub fn custom_literal_to_string(book: &[u8], t: usize, at: usize, out: &mut [u8]) -> usize
    requires { Promise book.now × (t < size book.now terms) × GoodLiteral book.now t }
    ensures { WroteAt (custom_literal_to_string (literal_of book.now t)) at out.old out.new result }
{
    let name = named(book, TERMS, t, LITERAL_NAME);
    let typ = field(book, TERMS, t, LITERAL_TYPE);
    put_typed(book, name, b":", typ, at, out)
}

// ROperator.ToString of application t.
pub fn operator_to_string(book: &[u8], t: usize, at: usize, out: &mut [u8]) -> usize
    requires { Promise book.now × (t < size book.now terms) × (4 ≤ field book.now terms t 0) × (field book.now terms t 0 ≤ 5) }
    ensures { WroteAt (operator_text book.now t) at out.old out.new result }
{
    if field(book, TERMS, t, KIND) == Kind::BuiltIn as usize {
        return put_at(named(book, TERMS, t, OPERATOR), at, out);
    }
    let f = field(book, TERMS, t, OPERATOR);
    put_at(named(book, FUNCTIONS, f, FUNCTION_NAME), at, out)
}

// What quantifier t begins with.
pub fn put_quantifier_opening(book: &[u8], t: usize, at: usize, out: &mut [u8]) -> usize
    requires { Promise book.now × (t < size book.now terms) }
    ensures { WroteAt (quantifier_opening (universal book.now t)) at out.old out.new result }
{
    if field(book, TERMS, t, QUANTIFIER_UNIVERSAL) == 0 {
        return put_at(b"(exists ", at, out);
    }
    put_at(b"(forall ", at, out)
}

// As many closing parentheses as are open.
pub fn put_closing(pending: usize, at: usize, out: &mut [u8]) -> usize
    ensures { WroteAt (closing pending) at out.old out.new result }
{
    let k = clip(at, out.len());
    let n = repeat(b')', pending, &mut out[k..]);
    sum(at, n)
}
