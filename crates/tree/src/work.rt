// Works the computed lists out again, parents first.
ghost use Rattle.std.specs.Prelude.{◌≡◌, [], Ok, ◌+◌, ◌≤◌, ◌<◌, length};
ghost use Rattle.std.proofs.Math.Option.{none, some};
ghost use Rattle.inherit.specs.Compute.{Answers};
ghost use Rattle.tree.specs.Inner.Asking.{settings_asked};
ghost use Rattle.tree.specs.Inner.Else.{or_else, worked_out};
ghost use Rattle.tree.specs.Held.{lent_list, parent_of};
ghost use Rattle.tree.specs.Room.{own_at, slot_at, mapping_of, own_data as Room·own};
ghost use Rattle.tree.specs.Work.{asked_in, above_in as Work·above, rework, reworked};
ghost use Rattle.tree.specs.Calls.{reworked_with};

use crate::held::{id_in, list_in, number_in};
use crate::places::{
    DEFAULT_AT, GROUP_AT, IDENTITY, LONGEST_LIST, OBJECT, OWN_LIST_AT, OWNER_AT, SLOT, SLOTS_AT,
    TYPE_AT, own, settings, slot,
};
use crate::writes::{lay, lay_list, zero};
use inherit::{Computed, Mapping, Settings};
use list::guid_at;
use octets::{byte_in, part_of, word_in};
use refusal::{Fault, Refusal};

fn mapping_in(e: &[u8]) -> Mapping
    ensures { result ≡ mapping_of e.now }
{
    Mapping {
        read: word_in(e, 1),
        write: word_in(e, 5),
        execute: word_in(e, 9),
        all: word_in(e, 13),
    }
}

// The settings of an object's computation, by its own data b; whatever the tree's settings and the parent's list are. Which lists there are doesn't stand in them: those
// that are there are lent.
fn settings_in(b: &[u8]) -> Settings
    ensures { result ≡ settings_asked (asked_in [] none b.now) }
{
    Settings {
        container: byte_in(b, 1) == 1,
        auto: true,
        defaulted: false,
        protect: byte_in(b, 2) == 1,
    }
}

// An object's list, on the front of out: from its parent's list, its own data b and the settings e.
fn compute_in(
    e: &[u8],
    parent: Option<&[u8]>,
    b: &[u8],
    out: &mut [u8],
) -> Result<Option<Computed>, Fault>
    ensures { Answers (asked_in e.now (lent_list parent.entry) b.now) out.old result out.new }
{
    let kind = guid_at(b, TYPE_AT);
    inherit::compute(
        u32::from(byte_in(e, 0)),
        settings_in(b),
        mapping_in(e),
        parent,
        list_in(part_of(b, OWN_LIST_AT, SLOT)),
        list_in(part_of(e, DEFAULT_AT, SLOT)),
        &kind,
        id_in(part_of(b, OWNER_AT, IDENTITY)),
        id_in(part_of(b, GROUP_AT, IDENTITY)),
        out,
    )
}

// The computed list of object i's parent, where it has one.
fn above(r: &[u8], i: usize) -> Option<&[u8]>
    requires { i < 256 }
    ensures { lent_list result ≡ Work·above (parent_of (Room·own i r.now)) i r.now }
{
    let p = number_in(own(r, i), 0);
    if p < i { list_in(slot(r, p)) } else { None }
}

// Works object i's list out again. out is where it is computed.
fn rework_one(w: &mut [u8], out: &mut [u8; LONGEST_LIST], i: usize) -> Result<(), Refusal>
    requires { (i < 256) × (slot_at i + 1027 ≤ length w.old) }
    ensures { (result ≡ worked_out (rework i w.old)) × (w.new ≡ or_else w.old (rework i w.old)) }
{
    let at = SLOTS_AT + i * OBJECT;
    let v = &w[..];
    match compute_in(settings(v), above(v, i), own(v, i), &mut out[..]) {
        Ok(Some(found)) => lay_list(w, at, part_of(out, 0, usize::from(found.length))),
        Ok(None) => zero(w, at, SLOT),
        // in a well-formed room no more than the list's length can be wrong
        Err(_) => return Err(Refusal::Room),
    }
    Ok(())
}

// Works the lists of the first n objects out again.
fn rework_all(w: &mut [u8], n: usize) -> Result<(), Refusal>
    requires { (n < 256) × (own_at n ≤ length w.old) }
    ensures { (result ≡ worked_out (reworked n w.old)) × ((result ≡ Ok tt → reworked n w.old ≡ some w.new)) }
{
    let mut out = [0u8; LONGEST_LIST];
    for i in 0..n {
        rework_one(w, &mut out, i)?;
    }
    Ok(())
}

// Puts b at its place, lets n objects stand, and works every list out again.
pub(crate) fn settle(w: &mut [u8], at: usize, b: &[u8], n: usize) -> Result<(), Refusal>
    requires { (n < 256) × ((own_at n ≤ length w.old) × (at + length b.now ≤ length w.old)) }
    ensures { (result ≡ worked_out (reworked_with at b.now n w.old)) × ((result ≡ Ok tt → reworked_with at b.now n w.old ≡ some w.new)) }
{
    lay(w, at, b);
    w[2] = n as u8;
    rework_all(w, n)
}
