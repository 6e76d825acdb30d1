// Which command of ours a line is.
ghost use Rattle.std.specs.Prelude.{◌≡◌};
ghost use Rattle.basics.specs.Text.{same};
ghost use Rattle.smt_engines.specs.SmtEngines.{CMD_PUSH, CMD_POP, CMD_CHECK_SAT, CMD_GET_MODEL};
ghost use Rattle.command_lines.specs.Lines.{line_at};
ghost use Rattle.command_lines.specs.CommandLines.{opens_context, is_context, line_kind};

use super::lines::{all_printing, starts_with};
use super::parentheses::all_shut;

pub const PUSH: &[u8] = b"(push 1)";

const POP: &[u8] = b"(pop 1)";

pub const CHECK_SAT: &[u8] = b"(check-sat)";

const GET_MODEL: &[u8] = b"(get-model)";

#[derive(Clone, Copy)]
pub enum LineKind {
    Push,
    Pop,
    CheckSat,
    GetModel,
    Joins,
    Foreign,
}

// The line asserts or declares, by its start.
fn opens_context(line: &[u8]) -> bool
    ensures { result ≡ opens_context line.now }
{
    starts_with(line, b"(assert ")
        || starts_with(line, b"(declare-fun ")
        || starts_with(line, b"(declare-sort ")
}

fn is_context(line: &[u8]) -> bool
    ensures { result ≡ is_context line.now }
{
    opens_context(line) && all_printing(line) && all_shut(line)
}

// The kind of a line.
pub fn line_kind(line: &[u8]) -> LineKind
    ensures { result ≡ line_kind line.now }
{
    if line == PUSH {
        LineKind::Push
    } else if line == POP {
        LineKind::Pop
    } else if line == CHECK_SAT {
        LineKind::CheckSat
    } else if line == GET_MODEL {
        LineKind::GetModel
    } else if is_context(line) {
        LineKind::Joins
    } else {
        LineKind::Foreign
    }
}
