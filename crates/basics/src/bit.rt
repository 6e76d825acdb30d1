// The bits of a byte. By shifts: the book test takes longer if a byte is divided by a power from a table.
ghost use Rattle.std.specs.Prelude.{◌≡◌, false, ◌<◌};
ghost use Rattle.basics.specs.Bits.{has_bit, with_bit};

// A byte's bits.
pub const BITS: usize = 8;

pub fn has_bit(byte: u8, i: usize) -> bool
    requires { i < 8 }
    ensures { result ≡ has_bit byte i }
{
    (byte >> i) % 2 == 1
}

// A byte with bit i, which it hasn't.
pub fn with_bit(byte: u8, i: usize) -> u8
    requires { (i < 8) × (has_bit byte i ≡ false) }
    ensures { result ≡ with_bit byte i }
{
    byte + (1 << i)
}
