// Lines at places of texts.
ghost use Rattle.std.specs.Prelude.{◌≡◌, ◌==◌, drop};
ghost use Rattle.std.specs.List.{position};
ghost use Rattle.basics.specs.Text.{same};
ghost use Rattle.basics.specs.Lists.{all};
ghost use Rattle.command_lines.specs.Lines.{line_of, line_at};
ghost use Rattle.command_lines.specs.CommandLines.{is_printing, starts_with};

// What stands at a place and behind it.
fn rest(text: &[u8], at: usize) -> &[u8]
    ensures { result.now ≡ drop at text.now }
{
    text.get(at..).unwrap_or(&[])
}

// Where the first line ends, if it does.
fn first_end(text: &[u8]) -> Option<usize>
    ensures { result ≡ position (λ c. c == 10) text.now }
{
    text.iter().position(|c| *c == b'\n')
}

// The line at a place: up to the next line end, or to the text's end.
pub fn line_at(text: &[u8], at: usize) -> &[u8]
    ensures { result.now ≡ line_at text.now at }
{
    let rest = rest(text, at);
    match first_end(rest) {
        Some(end) => &rest[..end],
        None => rest,
    }
}

// The line at a place is this one. It is read as far as the two are the same.
pub fn is_line(text: &[u8], at: usize, line: &[u8]) -> bool
    requires { line_of line.now ≡ line.now }
    ensures { result ≡ same (line_at text.now at) line.now }
{
    match rest(text, at).strip_prefix(line) {
        Some([]) => true,
        Some([c, ..]) => *c == b'\n',
        None => false,
    }
}

// The line at i of one text is the line at j of another.
pub fn same_line(a: &[u8], i: usize, b: &[u8], j: usize) -> bool
    ensures { result ≡ same (line_at a.now i) (line_at b.now j) }
{
    is_line(a, i, line_at(b, j))
}

// A line starts with these bytes.
pub fn starts_with(line: &[u8], head: &[u8]) -> bool
    ensures { result ≡ starts_with head.now line.now }
{
    line.starts_with(head)
}

// The bytes that may stand in a line: from a blank to `~`.
const FIRST_PRINTING: u8 = 0x20;

const LAST_PRINTING: u8 = 0x7E;

// A byte that may stand in a line.
fn is_printing(c: u8) -> bool
    ensures { result ≡ is_printing c }
{
    FIRST_PRINTING <= c && c <= LAST_PRINTING
}

// Each byte of a line is one.
pub fn all_printing(line: &[u8]) -> bool
    ensures { result ≡ all line.now is_printing }
{
    line.iter().all(|c| is_printing(*c))
}
