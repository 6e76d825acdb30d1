// Numbers of 32 bits as bytes, little-endian.
ghost use Rattle.basics.specs.Bytes.{bytes4};
ghost use Rattle.basics.specs.Write.{WroteAt};

use super::place::put_at;

// As many values as 32 bits have.
const WORDS: usize = 0x1_0000_0000;

// Writes a number's lowest 32 bits at a place.
pub fn put_word(x: usize, at: usize, out: &mut [u8]) -> usize
    ensures { WroteAt (bytes4 x) at out.old out.new result }
{
    let bytes = ((x % WORDS) as u32).to_le_bytes();
    put_at(&bytes, at, out)
}
