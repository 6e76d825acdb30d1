// What a turn prints.
ghost use Rattle.std.specs.Prelude.{◌≡◌, true};

// What is printed stands at the front of the text buffer, and then of the closing one. Both lengths count whether the program goes on or not.
#[derive(Clone, Copy)]
pub struct Turn {
    pub written: usize,
    pub closed: usize,
    pub more: bool,
}

impl Turn {
    // A turn of one text, behind which the program goes on.
    pub fn alone(n: usize) -> Turn
        ensures { result ≡ record { written = n; closed = 0; more = true } }
    {
        Turn {
            written: n,
            closed: 0,
            more: true,
        }
    }
}
