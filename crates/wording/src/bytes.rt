// Single bytes of a text.
ghost use Rattle.std.specs.Prelude.{◌≡◌, ◌<◌};
ghost use Rattle.wording.specs.Inner.Walk.{IsAt};

// Byte x, which is not 0, stands at p.
pub(crate) fn byte_is(s: &[u8], p: usize, x: u8) -> bool
    requires { 0 < x }
    ensures { IsAt s.now p x result }
{
    s.get(p) == Some(&x)
}
