// What says how an entry is copied.
ghost use Rattle.std.specs.Prelude.{◌≤◌, length};

use crate::Mapping;
use crate::rules::Rule;

// The rule, whether the new object is a container, its object types, and who owns it; an identity has at most 68 bytes.
#[derive(Clone, Copy)]
pub struct Terms<'a> {
    pub rule: Rule,
    pub container: bool,
    pub mapping: Mapping,
    pub types: &'a [[u8; 16]],
    pub owner: &'a [u8],
    pub group: &'a [u8],
    ghost owner_short: { length owner.now ≤ 68 },
    ghost group_short: { length group.now ≤ 68 },
}
