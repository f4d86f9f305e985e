// What the parts of a room hold: a slot, an identity, own data of an object.
ghost use Rattle.std.specs.Prelude.{◌≡◌, ◌<◌, get_or, Ok};
ghost use Rattle.inherit.specs.Compute.{ordinary as Compute·ordinary};
ghost use Rattle.tree.specs.Held.{lent_list, bytes_in, held, slot_ok, id_in, id_ok, block_ok, alike as Held·alike};
ghost use Rattle.tree.specs.Calls.{told_as as Calls·told};

use crate::places::{
    GROUP_AT, IDENTITY, LIST_AT, LONGEST_IDENTITY, LONGEST_LIST, OWN_LIST_AT, OWNER_AT, SLOT,
    TYPE_AT,
};
use crate::{Done, TELLS_NOTHING};
use list::{guid_at, same_guid};
use octets::{byte_in, half_in, part_of};

// A byte as a number.
pub(crate) fn number_in(s: &[u8], at: usize) -> usize
    ensures { (result ≡ get_or s.now at 0) × (result < 256) }
{
    usize::from(byte_in(s, at))
}

// The bytes of a slot's list, where it has one.
#[tactic(auto, unfolding(crate::specs::Held::bytes_in))]
fn bytes_in(s: &[u8]) -> &[u8]
    ensures { result.now ≡ bytes_in s.now }
{
    part_of(
        part_of(s, LIST_AT, LONGEST_LIST),
        0,
        usize::from(half_in(s, 1)),
    )
}

// The list in a slot.
pub(crate) fn list_in(s: &[u8]) -> Option<&[u8]>
    ensures { lent_list result ≡ held s.now }
{
    if byte_in(s, 0) == 1 {
        Some(bytes_in(s))
    } else {
        None
    }
}

#[tactic(auto, unfolding(crate::specs::Held::slot_ok))]
pub(crate) fn slot_ok(s: &[u8]) -> bool
    ensures { result ≡ slot_ok s.now }
{
    match byte_in(s, 0) {
        0 => true,
        1 => half_in(s, 1) <= 1024 && list::check(bytes_in(s)).is_ok(),
        _ => false,
    }
}

// The identity in its field.
#[tactic(auto, unfolding(crate::specs::Held::id_in))]
pub(crate) fn id_in(f: &[u8]) -> &[u8]
    ensures { result.now ≡ id_in f.now }
{
    part_of(part_of(f, 1, LONGEST_IDENTITY), 0, number_in(f, 0))
}

// One SID, and no placeholder: one line, which the computation has too; shared, it would be a public call that says no more than `list::identity`.
pub(crate) fn ordinary(s: &[u8]) -> bool
    ensures { result ≡ Compute·ordinary s.now }
{
    list::identity(s) == Ok(None)
}

#[tactic(auto, unfolding(crate::specs::Held::id_ok))]
fn id_ok(f: &[u8]) -> bool
    ensures { result ≡ id_ok f.now }
{
    byte_in(f, 0) <= 68 && ordinary(id_in(f))
}

// Own data that is good by itself.
#[tactic(auto, unfolding(crate::specs::Held::block_ok))]
pub(crate) fn block_ok(b: &[u8]) -> bool
    ensures { result ≡ block_ok b.now }
{
    byte_in(b, 1) <= 1
        && byte_in(b, 2) <= 1
        && id_ok(part_of(b, OWNER_AT, IDENTITY))
        && id_ok(part_of(b, GROUP_AT, IDENTITY))
        && slot_ok(part_of(b, OWN_LIST_AT, SLOT))
}

// Own data that agrees in parent, kind and type.
#[tactic(auto, unfolding(crate::specs::Held::alike))]
pub(crate) fn alike(a: &[u8], b: &[u8]) -> bool
    ensures { result ≡ Held·alike a.now b.now }
{
    byte_in(a, 0) == byte_in(b, 0)
        && byte_in(a, 1) == byte_in(b, 1)
        && same_guid(guid_at(a, TYPE_AT), guid_at(b, TYPE_AT))
}

// A slot's list in an answer.
pub(crate) fn told(s: &[u8]) -> Done
    ensures { Ok result ≡ Calls·told (held s.now) }
{
    match list_in(s) {
        Some(list) => Done {
            length: list.len() as u16,
            present: true,
            count: half_in(list, 4),
        },
        None => TELLS_NOTHING,
    }
}
