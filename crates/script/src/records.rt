// One record at the front of a slice.
ghost use Rattle.std.specs.Prelude.{◌≡◌, ◌+◌, ◌≤◌, get_or};
ghost use Rattle.tree.specs.Shown.{call_on};
ghost use Rattle.tree.specs.Calls.{Promised, list as Edit·list, owners as Edit·owners, object_for, add_to, alter_to};
ghost use Rattle.script.specs.Record.{name_in, name_end, list_in, list_end, flag_ok, flag as Record·flag, parent_named, record_size, form_ok, new_in, asks_by, request_of, step_of};

use list::guid_at;
use octets::{byte_in, half_in, part_of};
use refusal::Fault;
use tree::Done;

// Why no whole record stands in front: some of its bytes are missing, or its form is bad.
#[derive(Clone, Copy, Debug, PartialEq, Eq)]
pub enum Flaw {
    Cut,
    Bad,
}

// What a record asks of the tree (RULES 6.2).
#[derive(Clone, Copy, Debug, PartialEq, Eq)]
pub enum Asks {
    Add,
    SetList,
    SetMark,
    SetOwner,
    Undo,
}

impl Asks {
    // By the number of a record of good form: what is left is 5, so this can't fail, as a TryFrom would.
    #[tactic(auto, unfolding(crate::specs::Record::asks_by))]
    fn of(number: u8) -> Asks
        ensures { result ≡ asks_by number }
    {
        match number {
            1 => Asks::Add,
            2 => Asks::SetList,
            3 => Asks::SetMark,
            4 => Asks::SetOwner,
            _ => Asks::Undo,
        }
    }
}

// A whole record: how many bytes it has, and what it asks.
#[derive(Clone, Copy, Debug, PartialEq, Eq)]
pub struct Record {
    pub length: usize,
    pub asks: Asks,
}

// Where an owner or a group ends, whose length byte is at `at`.
#[tactic(auto, unfolding(crate::specs::Record::name_end))]
fn name_end(t: &[u8], at: usize) -> usize
    requires { at ≤ 512 }
    ensures { (result ≡ name_end at t.now) × (result ≤ at + 256) }
{
    at + 1 + byte_in(t, at) as usize
}

// The owner or group itself.
fn name_in(t: &[u8], at: usize) -> &[u8]
    requires { at ≤ 512 }
    ensures { result.now ≡ name_in at t.now }
{
    part_of(t, at + 1, byte_in(t, at) as usize)
}

// Where a list ends, whose 16-bit length is at `at`.
#[tactic(auto, unfolding(crate::specs::Record::list_end))]
fn list_end(t: &[u8], at: usize) -> usize
    requires { at ≤ 1024 }
    ensures { (result ≡ list_end at t.now) × (result ≤ at + 65537) }
{
    at + 2 + half_in(t, at) as usize
}

// How long a record is.
#[tactic(auto, unfolding(crate::specs::Record::record_size))]
fn size(t: &[u8]) -> usize
    ensures { result ≡ record_size t.now }
{
    match byte_in(t, 0) {
        1 => list_end(t, name_end(t, name_end(t, 20))),
        2 => list_end(t, 2),
        3 => 3,
        4 => name_end(t, name_end(t, 2)),
        _ => 1,
    }
}

// A kind or a mark is 1 or 0.
fn flag_ok(t: &[u8], at: usize) -> bool
    ensures { result ≡ flag_ok at t.now }
{
    byte_in(t, at) <= 1
}

fn flag(t: &[u8], at: usize) -> bool
    ensures { result ≡ Record·flag at t.now }
{
    byte_in(t, at) == 1
}

// No kind or mark above 1, no unknown record.
#[tactic(auto, unfolding(crate::specs::Record::form_ok))]
fn form_ok(t: &[u8]) -> bool
    ensures { result ≡ form_ok t.now }
{
    match byte_in(t, 0) {
        1 => flag_ok(t, 2) && flag_ok(t, 3),
        3 => flag_ok(t, 2),
        2 | 4 | 5 => true,
        _ => false,
    }
}

// The record at the front of a slice.
#[tactic(auto, unfolding(crate::specs::Record::step_of))]
pub fn step(t: &[u8]) -> Result<Record, Flaw>
    ensures { result ≡ step_of t.now }
{
    let length = size(t);
    if t.len() < length {
        return Err(Flaw::Cut);
    }
    if !form_ok(t) {
        return Err(Flaw::Bad);
    }
    Ok(Record {
        length,
        asks: Asks::of(byte_in(t, 0)),
    })
}

// The parent byte as tree::add takes it.
#[tactic(auto, unfolding(crate::specs::Record::parent_named))]
fn parent_of(b: u8) -> u32
    ensures { result ≡ parent_named b }
{
    if b == 0xFF { 0xFFFFFFFF } else { b as u32 }
}

// Record 1.
#[tactic(auto, using(crate::proofs::Tables::part_rules))]
fn add(room: &mut [u8], t: &[u8]) -> Result<Done, Fault>
    ensures { Promised (add_to (object_for (new_in t.now)) room.old) result room.new }
{
    let group_at = name_end(t, 20);
    let list_at = name_end(t, group_at);
    let n = half_in(t, list_at);
    tree::add(
        room,
        parent_of(byte_in(t, 1)),
        flag(t, 2),
        flag(t, 3),
        guid_at(t, 4),
        name_in(t, 20),
        name_in(t, group_at),
        (n != 0).then_some(part_of(t, list_at + 2, n as usize)),
    )
}

// Record 2.
#[tactic(auto, using(crate::proofs::Tables::part_rules))]
fn set_list(room: &mut [u8], t: &[u8]) -> Result<Done, Fault>
    ensures { Promised (alter_to (get_or t.now 1 0) (Edit·list (list_in 2 t.now)) room.old) result room.new }
{
    let n = half_in(t, 2);
    tree::set_list(
        room,
        byte_in(t, 1) as u32,
        (n != 0).then_some(part_of(t, 4, n as usize)),
    )
}

// Record 4.
#[tactic(auto, using(crate::proofs::Tables::part_rules))]
fn set_owner(room: &mut [u8], t: &[u8]) -> Result<Done, Fault>
    ensures { Promised (alter_to (get_or t.now 1 0) (Edit·owners (name_in 2 t.now) (name_in (name_end 2 t.now) t.now)) room.old) result room.new }
{
    let group_at = name_end(t, 2);
    tree::set_owner(
        room,
        byte_in(t, 1) as u32,
        name_in(t, 2),
        name_in(t, group_at),
    )
}

// Asks the tree for what a whole record asks.
#[tactic(auto, unfolding(crate::specs::Record::request_of, tree::specs::Shown::call_on, tree::specs::Shown::change_with))]
pub(crate) fn carry_out(room: &mut [u8], t: &[u8], asks: Asks) -> Result<Done, Fault>
    ensures { Promised (call_on (request_of asks t.now) room.old) result room.new }
{
    match asks {
        Asks::Add => add(room, t),
        Asks::SetList => set_list(room, t),
        Asks::SetMark => tree::set_mark(room, byte_in(t, 1) as u32, flag(t, 2)),
        Asks::SetOwner => set_owner(room, t),
        Asks::Undo => tree::undo(room),
    }
}
