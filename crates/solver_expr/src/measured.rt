// A text that is measured before the buffer is touched.
ghost use Rattle.std.specs.Prelude.{◌<◌, ◌^◌, length};
ghost use Rattle.basics.specs.Text.{Text};
ghost use Rattle.basics.specs.Write.{Wrote};
ghost use Rattle.solver_expr.specs.Print.{fitting, Answered};

use book::Refusal;

// Measures the text on an empty buffer, and then writes it, or refuses one that is too long.
pub fn fitted<W: Fn(&mut [u8]) -> usize>(write: W, text: &mut [u8]) -> Result<usize, Refusal>
    requires { W.IsAlwaysCallable write }
    ensures { (x : Text) → ((p : _) (r : _) (q : _) → length p.now < 2 ^ 63 → W.post write p r q → Wrote x p.now q.now r) → Answered (fitting (length text.old) x) result text.old text.new }
{
    let whole = write(&mut []);
    if text.len() < whole {
        return Err(Refusal::BufferTooShort);
    }
    write(text);
    Ok(whole)
}
