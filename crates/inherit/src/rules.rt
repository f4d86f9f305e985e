// Which rule a computation follows.
ghost use Rattle.std.specs.Prelude.{◌≡◌};
ghost use Rattle.inherit.specs.Inner.Rules.{rule_of};

use refusal::Refusal;

// The printed text's, or the one that mends it.
#[derive(Clone, Copy, Debug, PartialEq, Eq)]
pub enum Rule {
    Printed,
    Mended,
}

impl TryFrom<u32> for Rule {
    type Error = Refusal;

    ghost try_from_gives = { λ number result. result ≡ rule_of number };

    fn try_from(number: u32) -> Result<Self, Refusal> {
        match number {
            1 => Ok(Rule::Printed),
            2 => Ok(Rule::Mended),
            _ => Err(Refusal::Rule),
        }
    }
}
