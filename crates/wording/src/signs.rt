// The six comparisons.
ghost use Rattle.std.specs.Prelude.{◌≡◌, ◌≤◌, length, drop};
ghost use Rattle.wording.specs.Reader.{read_sign};
ghost use Rattle.wording.specs.Inner.Leaf.{sign_of};

use crate::operators::Operator;
use crate::walk::Wrong;

// A comparison, and where it ends: == != < <= > >=
pub(crate) fn read_sign(s: &[u8], at: usize) -> Result<(Operator, usize), Wrong>
    requires { at ≤ length s.now }
    ensures { result ≡ sign_of (length s.now) (read_sign (drop at s.now)) }
{
    match &s[at..] {
        [b'=', b'=', ..] => Ok((Operator::Equal, at + 2)),
        [b'!', b'=', ..] => Ok((Operator::Unequal, at + 2)),
        [b'<', b'=', ..] => Ok((Operator::AtMost, at + 2)),
        [b'>', b'=', ..] => Ok((Operator::AtLeast, at + 2)),
        [b'<', ..] => Ok((Operator::Below, at + 1)),
        [b'>', ..] => Ok((Operator::Above, at + 1)),
        [b'=' | b'!', ..] => Err(Wrong { at: at + 1 }),
        _ => Err(Wrong { at }),
    }
}
