// A writer gets the free part of a buffer, writes what fits there, and answers the whole length of its text.
ghost use Rattle.std.specs.Prelude.{◌≡◌, [], ◌∷◌, ◌+◌, min};
ghost use Rattle.basics.specs.Text.{space_byte};
ghost use Rattle.basics.specs.Write.{MOST, Wrote, WroteRepeat};

// The sum of two lengths. One that is too long stays at the largest.
pub fn sum(a: usize, b: usize) -> usize
    ensures { result ≡ min (a + b) MOST }
{
    a.saturating_add(b)
}

// Where a text of n bytes ends in a buffer of `room` bytes.
pub fn clip(n: usize, room: usize) -> usize
    ensures { result ≡ min n room }
{
    n.min(room)
}

// Writes one byte.
pub fn put(b: u8, out: &mut [u8]) -> usize
    ensures { Wrote (b ∷ []) out.old out.new result }
{
    if let Some(first) = out.first_mut() {
        *first = b;
    }
    1
}

// Writes a whole slice.
pub fn put_all(text: &[u8], out: &mut [u8]) -> usize
    ensures { Wrote text.now out.old out.new result }
{
    for i in 0..clip(text.len(), out.len()) {
        out[i] = text[i];
    }
    text.len()
}

// Writes a byte n times. What is behind the buffer's end is not counted one by one.
pub fn repeat(b: u8, n: usize, out: &mut [u8]) -> usize
    ensures { WroteRepeat b n out.old out.new result }
{
    let end = clip(n, out.len());
    out[..end].fill(b);
    n
}

// Writes n spaces.
pub fn spaces(n: usize, out: &mut [u8]) -> usize
    ensures { WroteRepeat space_byte n out.old out.new result }
{
    repeat(b' ', n, out)
}
