// Int2String.
ghost use Rattle.basics.specs.Basics.{nat2_string, int2_string, int64};
ghost use Rattle.basics.specs.Write.{Wrote};

use super::write::put_all;
use itoa::Buffer;

// From here on 64 bits are a negative number.
pub const SIGN: u64 = 0x8000_0000_0000_0000;

// Writes a number that is not negative.
pub fn put_u64(n: u64, out: &mut [u8]) -> usize
    ensures { Wrote (nat2_string n) out.old out.new result }
{
    let mut digits = Buffer::new();
    put_all(digits.format(n).as_bytes(), out)
}

// Writes a signed number.
pub fn put_i64(x: i64, out: &mut [u8]) -> usize
    ensures { Wrote (int2_string x) out.old out.new result }
{
    let mut digits = Buffer::new();
    put_all(digits.format(x).as_bytes(), out)
}

// Writes the number that 64 bits are as two's complement.
pub fn put_int(bits: u64, out: &mut [u8]) -> usize
    ensures { Wrote (int2_string (int64 bits)) out.old out.new result }
{
    put_i64(bits.cast_signed(), out)
}
