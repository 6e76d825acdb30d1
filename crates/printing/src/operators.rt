// The call operator: the names of Ast.dfy's operators.
ghost use Rattle.std.proofs.Math.Option.{none};
ghost use Rattle.std.specs.Prelude.{◌≡◌, ◌≤◌, ◌-◌, ℕ, IfSome, MatchOption};
ghost use Rattle.solver_expr.specs.Operators.{operator_of};
ghost use Rattle.solver_expr.specs.Print.{printed_value, fitting, operator_text, operator_call};
ghost use Rattle.printing.specs.Calls.{operator_count, entry};

use basics::put_all;
use book::Refusal;
use solver_expr::fitted;

// The name of the operator with a code.
#[tactic(auto, unfolding(solver_expr::specs::Operators::operator_of, solver_expr::specs::Operators::operator_to_string, solver_expr::specs::Print::operator_text, crate::specs::Calls::names, crate::specs::Calls::entry))]
fn name_of(code: usize) -> Option<&'static [u8]>
    ensures of_code { MatchOption result (operator_of code ≡ none) (λ name. (room : ℕ) → operator_text (operator_of code) room ≡ fitting room name.now) }
    ensures in_table { IfSome result (λ name. (1 ≤ code) × (code ≤ operator_count) × (name.now ≡ entry (code - 1))) }
{
    match code {
        1 => Some(b"="),
        2 => Some(b"=>"),
        3 => Some(b"and"),
        4 => Some(b"or"),
        5 => Some(b"="),
        6 => Some(b"<"),
        7 => Some(b"<="),
        8 => Some(b"+"),
        9 => Some(b"-"),
        10 => Some(b"*"),
        11 => Some(b"div"),
        12 => Some(b"mod"),
        13 => Some(b"not"),
        14 => Some(b"-"),
        _ => None,
    }
}

pub fn operator(code: usize, text: &mut [u8]) -> Result<usize, Refusal>
    ensures answer { printed_value result ≡ (operator_call code text.old).answer }
    ensures text { text.new ≡ (operator_call code text.old).text }
{
    let Some(name) = name_of(code) else {
        return Err(Refusal::NoOperator);
    };
    fitted(|out| put_all(name, out), text)
}
