// The name of a probe: Record's constant, which is named by the depth of its parent.
ghost use Rattle.std.specs.Prelude.{◌≡◌, ◌≤◌, take};
ghost use Rattle.basics.specs.Write.{Wrote};
ghost use Rattle.book.specs.Book.{depth_most};
ghost use Rattle.name_search.specs.Probe.{probe_name};
ghost use Rattle.name_search.specs.ProbeText.{IsProbeName};

use arrayvec::ArrayVec;
use basics::{clip, put_all, put_u64, sum};

// Letters of the longest such name: the word, and a depth of three digits.
pub const PROBE_MOST: usize = 9;

pub type ProbeName = ArrayVec<u8, PROBE_MOST>;

// The first bytes of a buffer that a writer filled so far.
pub fn filled<const N: usize>(bytes: [u8; N], length: usize) -> ArrayVec<u8, N>
    ensures { result.items ≡ take length bytes.entry }
{
    let mut first = ArrayVec::from_array_in((), bytes);
    first.truncate(length);
    first
}

fn put_probe(depth: usize, out: &mut [u8]) -> usize
    ensures { Wrote (probe_name depth) out.old out.new result }
{
    let word = put_all(b"probe%", out);
    let k = clip(word, out.len());
    let digits = put_u64(depth as u64, &mut out[k..]);
    sum(word, digits)
}

// No node that the book test accepts is deeper.
pub fn probe_name(depth: usize) -> ProbeName
    requires { depth ≤ depth_most }
    ensures { IsProbeName depth result }
{
    let mut text = [0; PROBE_MOST];
    let length = put_probe(depth, &mut text);
    filled(text, length)
}
