// A tree of objects with undo, kept as bytes in a lent room (docs/ROOM.md).
#![tactic(auto)]

ghost use Rattle.std.specs.Prelude.{◌≡◌, true, false, ◌≤◌, length};
ghost use Rattle.octets.specs.Absent.{unless_zero};
ghost use Rattle.octets.specs.Bytes.{front};
ghost use Rattle.tree.specs.Model.{short_if as Model·short};
ghost use Rattle.tree.specs.Held.{held, lent_list};
ghost use Rattle.tree.specs.Room.{room_for, room_of, empty_room};
ghost use Rattle.tree.specs.Calls.{Says, Promised, answer_values, tells, list as Edit·list, mark as Edit·mark, owners as Edit·owners, told_as as Calls·told, object_for, start_ok, list_bytes, data_of, copied, start_to, add_to, alter_to, undo_to, list_to, own_to, data_to, counts_to};

use changes::{change, take_back};
use formed::{formed, rule_ok};
use held::{id_in, list_in, number_in, told};
use inherit::Mapping;
use octets::part_of;
use places::{
    GROUP_AT, IDENTITIES, IDENTITY, MARK_AT, OBJECT, OBJECTS_AT, OWN_DATA, OWN_LIST_AT, OWNER_AT,
    SETTINGS_AT, SLOT, STEP, own, slot,
};
use puts::Put;
use refusal::{Fault, Refusal};
use tags::Tag;
use tests::{test_add, test_list, test_object, test_owners, test_short};
use writes::{lay, lay_new, lay_owners, lay_settings, lay_slot, zero};

mod changes;
mod formed;
mod held;
mod places;
mod puts;
mod steps;
mod tags;
mod tests;
mod work;
mod writes;

// What a call that is done tells: a list's length, whether it is there, its entries; or what else the call says. The flag stands beside them as in
// document 01's values (`answer_values`): other calls tell other things by the three, so an Option of two is no plainer.
#[derive(Clone, Copy, Debug, PartialEq, Eq)]
pub struct Done {
    pub length: u16,
    pub present: bool,
    pub count: u16,
}

// Done, with nothing to tell.
pub(crate) const TELLS_NOTHING: Done = Done {
    length: 0,
    present: false,
    count: 0,
};

// How many bytes of room a tree needs; none where a limit is out of range.
#[tactic(auto, unfolding(crate::specs::Room::room_of, crate::specs::Model::limits_ok, octets::specs::Absent::unless_zero))]
pub fn room(objects: u32, steps: u32) -> Option<usize>
    ensures { result ≡ unless_zero (room_of objects steps) }
{
    if objects < 1 || 64 < objects || 64 < steps {
        return None;
    }
    Some(OBJECTS_AT + objects as usize * OBJECT + steps as usize * STEP)
}

fn start_ok(objects: u32, steps: u32, rule: u32, long: usize) -> bool
    ensures { result ≡ start_ok objects steps rule long }
{
    match room(objects, steps) {
        Some(need) => rule_ok(rule) && need <= long,
        None => false,
    }
}

// An empty tree's bytes, of what `start` was given.
fn empty(r: &mut [u8], objects: usize, steps: usize, rule: u8, m: Mapping, default: Option<&[u8]>)
    requires { (objects ≤ 64) × ((steps ≤ 64) × ((Model·short (lent_list default) ≡ true) × (room_for objects steps ≤ length r.old))) }
    ensures { r.new ≡ front (empty_room (record { object-limit = objects; step-limit = steps; rule = rule; mapping = m; default = lent_list default.entry })) r.old }
{
    r[0] = objects as u8;
    r[1] = steps as u8;
    r[2] = 0;
    r[3] = 0;
    lay_settings(r, SETTINGS_AT, rule, m, default);
    zero(r, OBJECTS_AT, objects * OBJECT + steps * STEP);
}

// Starts a tree, whose parameters are C's call's; of the rule any number may come in: object limit 1 to 64, step limit 0 to 64, rule, mapping, a default list or none.
pub fn start(
    room: &mut [u8],
    objects: u32,
    steps: u32,
    rule: u32,
    mapping: Mapping,
    default: Option<&[u8]>,
) -> Result<Done, Fault>
    ensures { Promised (start_to (record { object-limit = objects; step-limit = steps; rule = rule; mapping = mapping; default = lent_list default.entry }) room.old) result room.new }
{
    if !start_ok(objects, steps, rule, room.len()) {
        return Err(Refusal::Rule.into());
    }
    test_list(default, 3)?;
    test_short(default)?;
    empty(
        room,
        objects as usize,
        steps as usize,
        rule as u8,
        mapping,
        default,
    );
    Ok(TELLS_NOTHING)
}

// Adds an object below a parent (0xFFFFFFFF: none, as C says it); its parameters are C's call's.
pub fn add(
    room: &mut [u8],
    parent: u32,
    container: bool,
    mark: bool,
    guid: [u8; 16],
    owner: &[u8],
    group: &[u8],
    list: Option<&[u8]>,
) -> Result<Done, Fault>
    ensures { Promised (add_to (object_for (record { parent = parent; container = container; mark = mark; type = guid; owner = owner.now; group = group.now; list = lent_list list.entry })) room.old) result room.new }
{
    test_add(room, parent as usize)?;
    test_list(list, 2)?;
    test_owners(owner, group)?;
    test_short(list)?;
    let n = number_in(room, 2);
    let mut b = [0u8; OWN_DATA];
    lay_new(
        &mut b,
        parent as usize,
        container,
        mark,
        guid,
        owner,
        group,
        list,
    );
    change(
        room,
        Put {
            tag: Tag::Add,
            object: n,
            place: 0,
            bytes: &b,
            standing: n + 1,
        },
    )
}

// Sets an object's own list, or removes it.
pub fn set_list(room: &mut [u8], object: u32, list: Option<&[u8]>) -> Result<Done, Fault>
    ensures { Promised (alter_to object (Edit·list (lent_list list.entry)) room.old) result room.new }
{
    let i = object as usize;
    test_object(room, i)?;
    test_list(list, 2)?;
    test_short(list)?;
    let n = number_in(room, 2);
    let mut b = [0u8; SLOT];
    lay_slot(&mut b, 0, list);
    change(
        room,
        Put {
            tag: Tag::Alter,
            object: i,
            place: OWN_LIST_AT,
            bytes: &b,
            standing: n,
        },
    )
}

// Sets an object's protected mark.
pub fn set_mark(room: &mut [u8], object: u32, mark: bool) -> Result<Done, Fault>
    ensures { Promised (alter_to object (Edit·mark mark) room.old) result room.new }
{
    let i = object as usize;
    test_object(room, i)?;
    let n = number_in(room, 2);
    let b = [u8::from(mark)];
    change(
        room,
        Put {
            tag: Tag::Alter,
            object: i,
            place: MARK_AT,
            bytes: &b,
            standing: n,
        },
    )
}

// Sets an object's owner and group.
pub fn set_owner(room: &mut [u8], object: u32, owner: &[u8], group: &[u8]) -> Result<Done, Fault>
    ensures { Promised (alter_to object (Edit·owners owner.now group.now) room.old) result room.new }
{
    let i = object as usize;
    test_object(room, i)?;
    test_owners(owner, group)?;
    let n = number_in(room, 2);
    let mut b = [0u8; IDENTITIES];
    lay_owners(&mut b, 0, owner, group);
    change(
        room,
        Put {
            tag: Tag::Alter,
            object: i,
            place: OWNER_AT,
            bytes: &b,
            standing: n,
        },
    )
}

// Takes off the latest change not yet undone.
pub fn undo(room: &mut [u8]) -> Result<Done, Fault>
    ensures { Promised (undo_to room.old) result room.new }
{
    if !formed(room) {
        return Err(Refusal::Tree.into());
    }
    if number_in(room, 3) == 0 {
        return Err(Refusal::NoStep.into());
    }
    take_back(room)
}

// A slot's list on the front of out.
fn give_list(s: &[u8], out: &mut [u8]) -> Result<Done, Fault>
    ensures { (result ≡ (copied (Calls·told (held s.now)) (list_bytes (held s.now)) out.old).answer) × (out.new ≡ (copied (Calls·told (held s.now)) (list_bytes (held s.now)) out.old).bytes) }
{
    if let Some(list) = list_in(s) {
        if out.len() < list.len() {
            return Err(Refusal::Room.into());
        }
        octets::put(out, list);
    }
    Ok(told(s))
}

// An object's computed list.
pub fn list_of(room: &[u8], object: u32, out: &mut [u8]) -> Result<Done, Fault>
    ensures { Promised (list_to object room.now out.old) result out.new }
{
    let i = object as usize;
    test_object(room, i)?;
    give_list(slot(room, i), out)
}

// An object's own list.
pub fn own_of(room: &[u8], object: u32, out: &mut [u8]) -> Result<Done, Fault>
    ensures { Promised (own_to object room.now out.old) result out.new }
{
    let i = object as usize;
    test_object(room, i)?;
    give_list(part_of(own(room, i), OWN_LIST_AT, SLOT), out)
}

// Own data but for the list, on the front of out.
fn give_data(b: &[u8], out: &mut [u8]) -> Result<Done, Fault>
    requires { 19 ≤ length b.now }
    ensures { (result ≡ (copied (tells (length (data_of b.now)) true 0) (data_of b.now) out.old).answer) × (out.new ≡ (copied (tells (length (data_of b.now)) true 0) (data_of b.now) out.old).bytes) }
{
    let owner = id_in(part_of(b, OWNER_AT, IDENTITY));
    let group = id_in(part_of(b, GROUP_AT, IDENTITY));
    let n = owner.len();
    let m = group.len();
    if out.len() < 21 + n + m {
        return Err(Refusal::Room.into());
    }
    lay(out, 0, part_of(b, 0, OWNER_AT));
    out[OWNER_AT] = n as u8;
    lay(out, 20, owner);
    out[20 + n] = m as u8;
    lay(out, 21 + n, group);
    Ok(Done {
        length: (21 + n + m) as u16,
        present: true,
        count: 0,
    })
}

// An object's own data but for its list.
pub fn data_of(room: &[u8], object: u32, out: &mut [u8]) -> Result<Done, Fault>
    ensures { Promised (data_to object room.now out.old) result out.new }
{
    let i = object as usize;
    test_object(room, i)?;
    give_data(own(room, i), out)
}

// How many objects stand, and how many steps are kept.
pub fn counts(room: &[u8]) -> Result<Done, Fault>
    ensures { Says result (answer_values (counts_to room.now)) }
{
    if !formed(room) {
        return Err(Refusal::Tree.into());
    }
    Ok(Done {
        length: number_in(room, 2) as u16,
        present: true,
        count: number_in(room, 3) as u16,
    })
}
