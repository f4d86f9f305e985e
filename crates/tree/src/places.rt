// Where the parts of a room lie.
ghost use Rattle.std.specs.Prelude.{◌≡◌, ◌<◌};
ghost use Rattle.tree.specs.Room.{own_data as Room·own, slot as Room·slot, step as Room-step, settings as Room·settings};

use octets::part_of;

// A room (docs/ROOM.md): where its settings and its objects begin, and the lengths of its parts.
pub(crate) const SETTINGS_AT: usize = 4;

pub(crate) const SETTINGS: usize = 1044;

pub(crate) const OBJECTS_AT: usize = 1048;

pub(crate) const OBJECT: usize = 2211;

pub(crate) const OWN_DATA: usize = 1184;

pub(crate) const SLOTS_AT: usize = 2232;

pub(crate) const SLOT: usize = 1027;

pub(crate) const STEP: usize = 1186;

// Own data: where the mark, the type, owner, group and own list lie; an identity, and owner with group.
pub(crate) const MARK_AT: usize = 2;

pub(crate) const TYPE_AT: usize = 3;

pub(crate) const OWNER_AT: usize = 19;

pub(crate) const GROUP_AT: usize = 88;

pub(crate) const OWN_LIST_AT: usize = 157;

pub(crate) const IDENTITY: usize = 69;

pub(crate) const IDENTITIES: usize = 138;

// The default list in the settings, own data in a step, a list in its slot, the longest identity, and the longest list.
pub(crate) const DEFAULT_AT: usize = 17;

pub(crate) const STEP_DATA_AT: usize = 2;

pub(crate) const LIST_AT: usize = 3;

pub(crate) const LONGEST_IDENTITY: usize = 68;

pub(crate) const LONGEST_LIST: usize = 1024;

// The settings: rule, mapping, default list.
#[tactic(auto, unfolding(crate::specs::Room::settings))]
pub(crate) fn settings(r: &[u8]) -> &[u8]
    ensures { result.now ≡ Room·settings r.now }
{
    part_of(r, SETTINGS_AT, SETTINGS)
}

// Own data of object i. A number below 256 is a usize here, since every use of it multiplies or compares usizes.
#[tactic(auto, unfolding(crate::specs::Room::own_data))]
pub(crate) fn own(r: &[u8], i: usize) -> &[u8]
    requires { i < 256 }
    ensures { result.now ≡ Room·own i r.now }
{
    part_of(r, OBJECTS_AT + i * OBJECT, OWN_DATA)
}

// The computed list of object i.
#[tactic(auto, unfolding(crate::specs::Room::slot))]
pub(crate) fn slot(r: &[u8], i: usize) -> &[u8]
    requires { i < 256 }
    ensures { result.now ≡ Room·slot i r.now }
{
    part_of(r, SLOTS_AT + i * OBJECT, SLOT)
}

// Step j, behind n objects.
#[tactic(auto, unfolding(crate::specs::Room::step))]
pub(crate) fn step(r: &[u8], n: usize, j: usize) -> &[u8]
    requires { (n < 256) × (j < 256) }
    ensures { result.now ≡ Room-step n j r.now }
{
    part_of(r, OBJECTS_AT + n * OBJECT + j * STEP, STEP)
}
