// Two texts are compared: their lengths first, then their letters in steps of eight.
ghost use Rattle.std.specs.Prelude.{◌≡◌, ◌+◌, ◌<◌, ◌≤◌, length};
ghost use Rattle.basics.specs.Text.{same};
ghost use Rattle.basics.specs.Letters.{Four, four_at, Eight};

// Bytes of a step, and of half a step.
const STEP: usize = 8;

const HALF: usize = 4;

// What the second half counts.
const UPPER: usize = 0x100000000;

// The four bytes at i as one number. That each is below 256 has to be told, so that equal numbers are equal bytes.
fn four(a: &[u8], i: usize) -> usize
    requires { i + 4 ≤ length a.now }
    ensures { (result ≡ four_at a.now i) × Four a.now i }
{
    u32::from_le_bytes([a[i], a[i + 1], a[i + 2], a[i + 3]]) as usize
}

// The eight bytes at i as one number.
fn eight(a: &[u8], i: usize) -> usize
    requires { i + 8 ≤ length a.now }
    ensures { Eight a.now i result }
{
    four(a, i) + UPPER * four(a, i + HALF)
}

// Two texts of one length, of eight letters or more. Names that begin alike often end differently, so the last step comes first.
fn same_long(a: &[u8], b: &[u8]) -> bool
    requires { (length a.now ≡ length b.now) × (8 ≤ length a.now) }
    ensures { result ≡ same a.now b.now }
{
    let last = a.len() - STEP;
    if eight(a, last) != eight(b, last) {
        return false;
    }
    for i in (0..last).step_by(STEP) {
        if eight(a, i) != eight(b, i) {
            return false;
        }
    }
    true
}

// Two texts of one length, letter by letter.
fn same_short(a: &[u8], b: &[u8]) -> bool
    requires { length a.now ≡ length b.now }
    ensures { result ≡ same a.now b.now }
{
    a == b
}

// Two slices hold the same bytes.
pub fn same(a: &[u8], b: &[u8]) -> bool
    ensures { result ≡ same a.now b.now }
{
    if a.len() != b.len() {
        return false;
    }
    if a.len() < STEP {
        return same_short(a, b);
    }
    same_long(a, b)
}
