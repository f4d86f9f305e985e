// One token where it lies: whether it is one, and how many bytes it has.
ghost use Rattle.std.specs.Prelude.{◌≡◌};
ghost use Rattle.octets.specs.Absent.{unless_zero};
ghost use Rattle.condition.specs.Token.{name_ok, one_to_three, literal_at, name_at, token_at};
ghost use Rattle.condition.specs.Kind.{zeros as Kind·zeros};
ghost use Rattle.condition.specs.Inner.Cells.{long_of};

use crate::operators::Operator;
use octets::{byte_in, word_in};

pub(crate) const LITERAL: u8 = 0x04;

pub(crate) const NAME: u8 = 0xF8;

#[tactic(auto, unfolding(crate::specs::Token::one_to_three))]
fn one_to_three(b: u8) -> bool
    ensures { result ≡ one_to_three b }
{
    1 <= b && b <= 3
}

// A name's length is even and not 0.
#[tactic(auto, unfolding(crate::specs::Token::name_ok))]
pub(crate) fn name_ok(n: usize) -> bool
    ensures { result ≡ name_ok n }
{
    n > 0 && n % 2 == 0
}

#[tactic(auto, unfolding(octets::specs::Absent::unless_zero, crate::specs::Token::literal_at, crate::specs::Token::long, crate::specs::Inner::Cells::long_of))]
fn literal_long(s: &[u8]) -> Option<usize>
    ensures { result ≡ unless_zero (long_of (literal_at s.now)) }
{
    if s.len() < 11 || !one_to_three(s[9]) || !one_to_three(s[10]) {
        return None;
    }
    Some(11)
}

#[tactic(auto, unfolding(octets::specs::Absent::unless_zero, crate::specs::Token::name_at, crate::specs::Token::long, crate::specs::Inner::Cells::long_of))]
fn name_long(s: &[u8]) -> Option<usize>
    ensures { result ≡ unless_zero (long_of (name_at s.now)) }
{
    let n = word_in(s, 1) as usize;
    if !name_ok(n) || s.len() < 5 + n {
        return None;
    }
    Some(5 + n)
}

// How many bytes the token has that `s` begins with; none where it begins with none.
#[tactic(auto, unfolding(octets::specs::Absent::unless_zero, crate::specs::Token::token_at, crate::specs::Token::long, crate::specs::Inner::Cells::long_of))]
pub(crate) fn token_long(s: &[u8]) -> Option<usize>
    ensures { result ≡ unless_zero (long_of (token_at s.now)) }
{
    match byte_in(s, 0) {
        LITERAL => literal_long(s),
        NAME => name_long(s),
        code => Operator::from_code(code).map(|_| 1),
    }
}

// Only zeros are left.
pub(crate) fn zeros(s: &[u8]) -> bool
    ensures { result ≡ Kind·zeros s.now }
{
    s.iter().all(|b| *b == 0)
}
