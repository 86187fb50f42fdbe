// The refusals' numbers in code, by a name of their own: `u8::from` in `model` gives them.
#![tactic(auto)]

ghost use Rattle.std.specs.Prelude.{◌≡◌};
ghost use Rattle.model.specs.Numbers.{number_of};

use model::Refusal;

// The paper's number of a refusal.
pub fn number(refusal: Refusal) -> u8
    ensures { result ≡ number_of refusal }
{
    u8::from(refusal)
}
