// What a change puts into an object's own data.
ghost use Rattle.std.specs.Prelude.{◌+◌, ◌≤◌, length};

use crate::tags::Tag;

// The kind of its step, the object, the bytes with their place in its own data, and how many objects stand then.
#[derive(Clone, Copy)]
pub(crate) struct Put<'a> {
    pub(crate) tag: Tag,
    pub(crate) object: usize,
    pub(crate) place: usize,
    pub(crate) bytes: &'a [u8],
    pub(crate) standing: usize,
    ghost inside: { place + length bytes.now ≤ 1184 },
}
