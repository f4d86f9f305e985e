// Writes the parts of a room: bytes at a place, a slot, an identity, own data of a new object.
ghost use Rattle.std.specs.Prelude.{◌≡◌, true, ◌++◌, ◌+◌, ◌≤◌, min, length, replicate};
ghost use Rattle.std.proofs.Math.Option.{some};
ghost use Rattle.octets.specs.Bytes.{put_at, spell};
ghost use Rattle.tree.specs.Model.{parent_byte, short_if};
ghost use Rattle.tree.specs.Held.{lent_list, slot_for, id_for, parent_in, block_for};
ghost use Rattle.tree.specs.Calls.{nobody, object_for};
ghost use Rattle.tree.specs.Room.{settings_for};

use crate::places::{
    DEFAULT_AT, IDENTITY, LIST_AT, LONGEST_IDENTITY, LONGEST_LIST, OWN_LIST_AT, OWNER_AT, SLOT,
    TYPE_AT,
};
use inherit::Mapping;

// The bytes b at a place.
pub(crate) fn lay(w: &mut [u8], at: usize, b: &[u8])
    requires { at + length b.now ≤ length w.old }
    ensures { w.new ≡ put_at at b.now w.old }
{
    octets::put(&mut w[at..], b);
}

// n zeros at a place.
pub(crate) fn zero(w: &mut [u8], at: usize, n: usize)
    requires { at + n ≤ length w.old }
    ensures { w.new ≡ put_at at (replicate n 0) w.old }
{
    w[at..at + n].fill(0);
}

// The slot of a list.
pub(crate) fn lay_list(w: &mut [u8], at: usize, s: &[u8])
    requires { (length s.now ≤ 1024) × (at + 1027 ≤ length w.old) }
    ensures { w.new ≡ put_at at (slot_for (some s.now)) w.old }
{
    let n = s.len();
    w[at] = 1;
    lay(w, at + 1, &(n as u16).to_le_bytes());
    lay(w, at + LIST_AT, s);
    zero(w, at + LIST_AT + n, LONGEST_LIST - n);
}

// The slot of a list, or of none.
pub(crate) fn lay_slot(w: &mut [u8], at: usize, list: Option<&[u8]>)
    requires { (short_if (lent_list list) ≡ true) × (at + 1027 ≤ length w.old) }
    ensures { w.new ≡ put_at at (slot_for (lent_list list.entry)) w.old }
{
    match list {
        Some(s) => lay_list(w, at, s),
        None => zero(w, at, SLOT),
    }
}

// An identity in its field.
pub(crate) fn lay_id(w: &mut [u8], at: usize, s: &[u8])
    requires { (length s.now ≤ 68) × (at + 69 ≤ length w.old) }
    ensures { w.new ≡ put_at at (id_for s.now) w.old }
{
    let n = s.len();
    w[at] = n as u8;
    lay(w, at + 1, s);
    zero(w, at + 1 + n, LONGEST_IDENTITY - n);
}

// Owner and group, one behind the other.
pub(crate) fn lay_owners(w: &mut [u8], at: usize, owner: &[u8], group: &[u8])
    requires { (length owner.now ≤ 68) × ((length group.now ≤ 68) × (at + 138 ≤ length w.old)) }
    ensures { w.new ≡ put_at at (id_for owner.now ++ id_for group.now) w.old }
{
    lay_id(w, at, owner);
    lay_id(w, at + IDENTITY, group);
}

// Own data of a new object, in a buffer of its size: the row of `add`, whose parameters C's call and docs/ name.
pub(crate) fn lay_new(
    w: &mut [u8],
    parent: usize,
    container: bool,
    mark: bool,
    guid: [u8; 16],
    owner: &[u8],
    group: &[u8],
    list: Option<&[u8]>,
)
    requires parent_value { parent_byte (parent_in nobody parent) ≡ min 255 parent }
    requires owner_len_bound { (length owner.now ≤ 68) × ((length group.now ≤ 68) × ((short_if (lent_list list) ≡ true) × (length w.old ≡ 1184))) }
    ensures { w.new ≡ block_for (object_for (record { parent = parent; container = container; mark = mark; type = guid; owner = owner.now; group = group.now; list = lent_list list.entry })) }
{
    w[0] = parent.min(255) as u8;
    w[1] = u8::from(container);
    w[2] = u8::from(mark);
    lay(w, TYPE_AT, &guid);
    lay_owners(w, OWNER_AT, owner, group);
    lay_slot(w, OWN_LIST_AT, list);
}

// A 32-bit number at a place.
pub(crate) fn lay_word(w: &mut [u8], at: usize, m: u32)
    requires { at + 4 ≤ length w.old }
    ensures { w.new ≡ put_at at (spell 4 m) w.old }
{
    lay(w, at, &m.to_le_bytes());
}

// The settings: rule, mapping, default list.
pub(crate) fn lay_settings(w: &mut [u8], at: usize, rule: u8, m: Mapping, default: Option<&[u8]>)
    requires { (short_if (lent_list default) ≡ true) × (at + 1044 ≤ length w.old) }
    ensures { w.new ≡ put_at at (settings_for rule m (lent_list default.entry)) w.old }
{
    w[at] = rule;
    lay_word(w, at + 1, m.read);
    lay_word(w, at + 5, m.write);
    lay_word(w, at + 9, m.execute);
    lay_word(w, at + 13, m.all);
    lay_slot(w, at + DEFAULT_AT, default);
}
