// The calls of the writer: what is appended to a book, and the grown book in a buffer of its own.
ghost use Rattle.std.specs.Prelude.{◌≡◌};
ghost use Rattle.new_records.specs.Drafts.{new_term};
ghost use Rattle.new_records.specs.NewNames.{maybe_text};
ghost use Rattle.basics.specs.Text.{given};
ghost use Rattle.book_writer.specs.Growths.{append_name, append_constant, append_term, append_node, extend, extend_with_equality, record_term, record_trace_point};
ghost use Rattle.book_writer.specs.Writing.{lent, grow_call, appended_value};
ghost use Rattle.leskofar.specs.Exports.{flag, appended};

use super::ACCEPTED;
use book::Refusal;
use book_writer::{
    Appended, TermFields, append_constant, append_name, append_node, append_term, extend,
    extend_with_equality, record, record_trace_point,
};
use refusal_numbers::number;

// The answer: 0, the new record's number and the new book's length; or the refusal's number.
#[repr(C)]
#[derive(Clone, Copy)]
pub struct AppendAnswered {
    pub refusal: u32,
    pub number: u32,
    pub length: u64,
}

fn answer(a: Result<Appended, Refusal>) -> AppendAnswered
    ensures { result ≡ appended (appended_value a) }
{
    match a {
        Ok(new) => AppendAnswered {
            refusal: ACCEPTED,
            number: new.number,
            length: new.length as u64,
        },
        Err(why) => AppendAnswered {
            refusal: number(why),
            number: 0,
            length: 0,
        },
    }
}

// A trace under C's flag that says whether it came.
fn came<'a>(traced: u32, trace: &'a [u8]) -> Option<&'a [u8]>
    ensures { maybe_text result ≡ given (flag traced) trace.now }
{
    if traced == 0 { None } else { Some(trace) }
}

#[unsafe(no_mangle)]
pub extern "C" fn leskofar_append_name<'a>(
    book: &'a [u8],
    scratch: &mut [u8],
    text: &'a [u8],
    out: &mut [u8],
) -> AppendAnswered
    ensures answer { result ≡ appended (grow_call book.now (lent (append_name text.now) scratch.old out.old)).answer }
    ensures book { out.new ≡ (grow_call book.now (lent (append_name text.now) scratch.old out.old)).buffer }
    ensures scratch { scratch.new ≡ (grow_call book.now (lent (append_name text.now) scratch.old out.old)).scratch }
{
    answer(append_name(book, scratch, text, out))
}

#[unsafe(no_mangle)]
pub extern "C" fn leskofar_append_constant(
    book: &[u8],
    scratch: &mut [u8],
    name: u32,
    typ: u32,
    out: &mut [u8],
) -> AppendAnswered
    ensures answer { result ≡ appended (grow_call book.now (lent (append_constant name typ) scratch.old out.old)).answer }
    ensures book { out.new ≡ (grow_call book.now (lent (append_constant name typ) scratch.old out.old)).buffer }
    ensures scratch { scratch.new ≡ (grow_call book.now (lent (append_constant name typ) scratch.old out.old)).scratch }
{
    answer(append_constant(book, scratch, name, typ, out))
}

#[unsafe(no_mangle)]
pub extern "C" fn leskofar_append_term<'a>(
    book: &'a [u8],
    scratch: &mut [u8],
    kind: u32,
    field1: u32,
    field2: u32,
    field3: u32,
    field4: u32,
    field5: u32,
    field6: u32,
    first: &'a [u8],
    second: &'a [u8],
    out: &mut [u8],
) -> AppendAnswered
    ensures answer { result ≡ appended (grow_call book.now (lent (append_term (new_term kind field1 field2 field3 field4 field5 field6) first.now second.now) scratch.old out.old)).answer }
    ensures book { out.new ≡ (grow_call book.now (lent (append_term (new_term kind field1 field2 field3 field4 field5 field6) first.now second.now) scratch.old out.old)).buffer }
    ensures scratch { scratch.new ≡ (grow_call book.now (lent (append_term (new_term kind field1 field2 field3 field4 field5 field6) first.now second.now) scratch.old out.old)).scratch }
{
    answer(append_term(
        book,
        scratch,
        TermFields {
            kind,
            field1,
            field2,
            field3,
            field4,
            field5,
            field6,
        },
        first,
        second,
        out,
    ))
}

#[unsafe(no_mangle)]
pub extern "C" fn leskofar_append_node(
    book: &[u8],
    scratch: &mut [u8],
    parent: u32,
    term: u32,
    trace: u32,
    out: &mut [u8],
) -> AppendAnswered
    ensures answer { result ≡ appended (grow_call book.now (lent (append_node parent term trace) scratch.old out.old)).answer }
    ensures book { out.new ≡ (grow_call book.now (lent (append_node parent term trace) scratch.old out.old)).buffer }
    ensures scratch { scratch.new ≡ (grow_call book.now (lent (append_node parent term trace) scratch.old out.old)).scratch }
{
    answer(append_node(book, scratch, parent, term, trace, out))
}

#[unsafe(no_mangle)]
pub extern "C" fn leskofar_extend<'a>(
    book: &'a [u8],
    scratch: &mut [u8],
    parent: u32,
    term: u32,
    traced: u32,
    trace: &'a [u8],
    out: &mut [u8],
) -> AppendAnswered
    ensures answer { result ≡ appended (grow_call book.now (lent (extend parent term (given (flag traced) trace.now)) scratch.old out.old)).answer }
    ensures book { out.new ≡ (grow_call book.now (lent (extend parent term (given (flag traced) trace.now)) scratch.old out.old)).buffer }
    ensures scratch { scratch.new ≡ (grow_call book.now (lent (extend parent term (given (flag traced) trace.now)) scratch.old out.old)).scratch }
{
    answer(extend(book, scratch, parent, term, came(traced, trace), out))
}

#[unsafe(no_mangle)]
pub extern "C" fn leskofar_extend_with_equality(
    book: &[u8],
    scratch: &mut [u8],
    parent: u32,
    constant: u32,
    term: u32,
    out: &mut [u8],
) -> AppendAnswered
    ensures answer { result ≡ appended (grow_call book.now (lent (extend_with_equality parent constant term) scratch.old out.old)).answer }
    ensures book { out.new ≡ (grow_call book.now (lent (extend_with_equality parent constant term) scratch.old out.old)).buffer }
    ensures scratch { scratch.new ≡ (grow_call book.now (lent (extend_with_equality parent constant term) scratch.old out.old)).scratch }
{
    answer(extend_with_equality(book, scratch, parent, constant, term, out))
}

#[unsafe(no_mangle)]
pub extern "C" fn leskofar_record<'a>(
    book: &'a [u8],
    scratch: &mut [u8],
    parent: u32,
    term: u32,
    typ: u32,
    traced: u32,
    trace: &'a [u8],
    out: &mut [u8],
) -> AppendAnswered
    ensures answer { result ≡ appended (grow_call book.now (lent (record_term parent term typ (given (flag traced) trace.now)) scratch.old out.old)).answer }
    ensures book { out.new ≡ (grow_call book.now (lent (record_term parent term typ (given (flag traced) trace.now)) scratch.old out.old)).buffer }
    ensures scratch { scratch.new ≡ (grow_call book.now (lent (record_term parent term typ (given (flag traced) trace.now)) scratch.old out.old)).scratch }
{
    answer(record(book, scratch, parent, term, typ, came(traced, trace), out))
}

#[unsafe(no_mangle)]
pub extern "C" fn leskofar_record_trace_point<'a>(
    book: &'a [u8],
    scratch: &mut [u8],
    parent: u32,
    trace: &'a [u8],
    out: &mut [u8],
) -> AppendAnswered
    ensures answer { result ≡ appended (grow_call book.now (lent (record_trace_point parent trace.now) scratch.old out.old)).answer }
    ensures book { out.new ≡ (grow_call book.now (lent (record_trace_point parent trace.now) scratch.old out.old)).buffer }
    ensures scratch { scratch.new ≡ (grow_call book.now (lent (record_trace_point parent trace.now) scratch.old out.old)).scratch }
{
    answer(record_trace_point(book, scratch, parent, trace, out))
}
