#![tactic(auto)]
// The number of each refusal in documents 01 and 02, as code.
ghost use Rattle.std.specs.Prelude.{◌≡◌};
ghost use Rattle.book.specs.Refusal.{number};

use book::Refusal;

#[tactic(auto, unfolding(book::specs::Refusal::number))]
pub fn number(why: Refusal) -> u32
    ensures { result ≡ number why }
{
    why as u32
}
