// Over an expression once.
ghost use Rattle.std.specs.Prelude.{◌≡◌};
ghost use Rattle.condition.specs.Table.{attributes_of};
ghost use Rattle.condition.specs.Inner.Cells.{live, ended_by, ran_of};

use crate::cells::effect_of;
use crate::stacks::Stack;
use crate::tokens::{token_long, zeros};
use crate::truths::Truth;
use octets::byte_in;

const MOST_TOKENS: u32 = 64;

// Where the tokens end and what they say.
#[derive(Clone, Copy)]
pub(crate) struct Ran {
    pub(crate) end: usize,
    pub(crate) truth: Truth,
}

// At the end of the tokens, where `rest` lies: one condition is left, and only zeros follow.
#[tactic(auto, unfolding(crate::specs::Inner::Cells::ended_by))]
fn ended(rest: &[u8], at: usize, stack: &Stack) -> Option<Ran>
    ensures { result ≡ ended_by at rest.now (live stack.now.cells stack.now.top) }
{
    let truth = stack.only()?;
    if !zeros(rest) {
        return None;
    }
    Some(Ran { end: at, truth })
}

// Runs the stored form's tokens one after the other.
pub(crate) fn run(s: &[u8], table: &[u8]) -> Option<Ran>
    ensures { result ≡ ran_of (attributes_of table.now) s.now }
{
    let mut rest = s.strip_prefix(b"artx")?;
    let mut stack = Stack::new();
    for _ in 0..MOST_TOKENS {
        if byte_in(rest, 0) == 0 {
            break;
        }
        let long = token_long(rest)?;
        let effect = effect_of(rest, long, table, &stack)?;
        stack.apply(effect);
        rest = &rest[long..];
    }
    ended(rest, s.len() - rest.len(), &stack)
}
