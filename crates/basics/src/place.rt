// Above the printers a writer is handed a place and the whole buffer, and answers the next place.
ghost use Rattle.basics.specs.Write.{WroteAt};

use super::write::{clip, put_all, sum};

// Writes a whole slice at a place.
pub fn put_at(text: &[u8], at: usize, out: &mut [u8]) -> usize
    ensures { WroteAt text.now at out.old out.new result }
{
    let k = clip(at, out.len());
    let n = put_all(text, &mut out[k..]);
    sum(at, n)
}
