// The refusals by number.
ghost use Rattle.std.specs.Prelude.{◌≡◌};
ghost use Rattle.grammar.specs.Outcome.{number};

use grammar::Refusal;

// The number of a refusal.
#[tactic(auto, unfolding(grammar::specs::Outcome::number))]
pub fn number_of(refusal: Refusal) -> u32
    ensures { result ≡ number refusal }
{
    refusal as u32
}
