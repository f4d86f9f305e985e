// Changes and undo: made on a copy of the room's area, which takes its place where every list could be worked out.
ghost use Rattle.std.specs.Prelude.{◌≡◌, Ok, ◌+◌, ◌≤◌, ◌<◌, length};
ghost use Rattle.std.proofs.Math.Option.{some};
ghost use Rattle.tree.specs.Inner.Else.{worked_out};
ghost use Rattle.tree.specs.Room.{object_limit, step_limit, kept_steps, step_object, room_for, area};
ghost use Rattle.tree.specs.Inner.Heads.{Head};
ghost use Rattle.tree.specs.Inner.Puts.{put_of};
ghost use Rattle.tree.specs.Calls.{changed, latest, step_taken_back, change_to, take_back_to};

use crate::formed::standing;
use crate::held::{number_in, told};
use crate::places::{OBJECT, OBJECTS_AT, OWN_DATA, STEP, STEP_DATA_AT, slot, step};
use crate::puts::Put;
use crate::steps::{pop, push};
use crate::work::settle;
use crate::{Done, TELLS_NOTHING};
use octets::part_of;
use refusal::{Fault, Refusal};

// The room of the largest tree, and of one of 16 objects and 16 steps, as scripts have it.
const LARGEST: usize = 218456;

const SMALL: usize = 55400;

// `Head` stands in each contract below: a type over the lent room would be taken apart where the copy takes the area's place.

// How much of the room its limits take up.
fn area_of(r: &[u8]) -> usize
    ensures { result ≡ room_for (object_limit r.now) (step_limit r.now) }
{
    OBJECTS_AT + number_in(r, 0) * OBJECT + number_in(r, 1) * STEP
}

// The room's area to w, with the change made.
fn change_copy(r: &[u8], w: &mut [u8], p: Put) -> Result<(), Refusal>
    requires head { Head r.now × (length w.old ≡ room_for (object_limit r.now) (step_limit r.now)) }
    requires within { (p.object < object_limit r.now) × (p.standing ≤ object_limit r.now) }
    ensures { (result ≡ worked_out (changed (put_of p.entry) (area r.now))) × ((result ≡ Ok tt → changed (put_of p.entry) (area r.now) ≡ some w.new)) }
{
    push(r, w, p.tag.byte(), p.object);
    settle(
        w,
        OBJECTS_AT + p.object * OBJECT + p.place,
        p.bytes,
        p.standing,
    )
}

// Change and undo have three steps each, and not one pair for both: what is made on the copy would be a closure over two lent slices, whose clauses would
// say again what `change_copy` and `undo_copy` promise, so it is no plainer.
fn change_in(r: &mut [u8], w: &mut [u8], p: Put) -> Result<Done, Fault>
    requires head { Head r.old × (length w.old ≡ room_for (object_limit r.old) (step_limit r.old)) }
    requires within { (p.object < object_limit r.old) × (p.standing ≤ object_limit r.old) }
    ensures { (result ≡ (change_to (put_of p.entry) r.old).answer) × (r.new ≡ (change_to (put_of p.entry) r.old).bytes) }
{
    change_copy(r, w, p)?;
    octets::put(r, w);
    Ok(told(slot(w, p.object)))
}

// The same on a copy in an array of N bytes. An array is cleared whole each time, so a small room's copy lies in a small one. Apart, so that a call that
// is refused before takes no room for it.
#[inline(never)]
fn change_within<const N: usize>(r: &mut [u8], p: Put) -> Result<Done, Fault>
    requires head { Head r.old × (room_for (object_limit r.old) (step_limit r.old) ≤ N) }
    requires largest { N ≤ 218456 }
    requires within { (p.object < object_limit r.old) × (p.standing ≤ object_limit r.old) }
    ensures { (result ≡ (change_to (put_of p.entry) r.old).answer) × (r.new ≡ (change_to (put_of p.entry) r.old).bytes) }
{
    let end = area_of(r);
    let mut w = [0u8; N];
    let copy = &mut w[..];
    change_in(r, &mut copy[..end], p)
}

// Puts bytes into an object's own data: a change, unless a list would pass 1,024 bytes.
pub(crate) fn change(r: &mut [u8], p: Put) -> Result<Done, Fault>
    requires head { Head r.old }
    requires within { (p.object < object_limit r.old) × (p.standing ≤ object_limit r.old) }
    ensures { (result ≡ (change_to (put_of p.entry) r.old).answer) × (r.new ≡ (change_to (put_of p.entry) r.old).bytes) }
{
    if r.len() <= SMALL {
        return change_within::<SMALL>(r, p);
    }
    change_within::<LARGEST>(r, p)
}

// The room's area to w, with the latest change undone.
fn undo_copy(r: &[u8], w: &mut [u8]) -> Result<(), Refusal>
    requires head { Head r.now × (length w.old ≡ room_for (object_limit r.now) (step_limit r.now)) }
    requires r_nonzero { (0 < kept_steps r.now) × (step_object (latest r.now) < object_limit r.now) }
    ensures { (result ≡ worked_out (step_taken_back (area r.now))) × ((result ≡ Ok tt → step_taken_back (area r.now) ≡ some w.new)) }
{
    pop(r, w);
    let u = step(r, number_in(r, 0), 0);
    settle(
        w,
        OBJECTS_AT + number_in(u, 1) * OBJECT,
        part_of(u, STEP_DATA_AT, OWN_DATA),
        standing(number_in(r, 2), u),
    )
}

fn undo_in(r: &mut [u8], w: &mut [u8]) -> Result<Done, Fault>
    requires head { Head r.old × (length w.old ≡ room_for (object_limit r.old) (step_limit r.old)) }
    requires r_nonzero { (0 < kept_steps r.old) × (step_object (latest r.old) < object_limit r.old) }
    ensures { (result ≡ (take_back_to r.old).answer) × (r.new ≡ (take_back_to r.old).bytes) }
{
    undo_copy(r, w)?;
    octets::put(r, w);
    Ok(TELLS_NOTHING)
}

// The same on a copy in an array of N bytes, apart too.
#[inline(never)]
fn undo_within<const N: usize>(r: &mut [u8]) -> Result<Done, Fault>
    requires head { Head r.old × (room_for (object_limit r.old) (step_limit r.old) ≤ N) }
    requires largest { N ≤ 218456 }
    requires r_nonzero { (0 < kept_steps r.old) × (step_object (latest r.old) < object_limit r.old) }
    ensures { (result ≡ (take_back_to r.old).answer) × (r.new ≡ (take_back_to r.old).bytes) }
{
    let end = area_of(r);
    let mut w = [0u8; N];
    let copy = &mut w[..];
    undo_in(r, &mut copy[..end])
}

// Takes off the latest change, unless a list would pass 1,024 bytes.
pub(crate) fn take_back(r: &mut [u8]) -> Result<Done, Fault>
    requires { Head r.old × ((0 < kept_steps r.old) × (step_object (latest r.old) < object_limit r.old)) }
    ensures { (result ≡ (take_back_to r.old).answer) × (r.new ≡ (take_back_to r.old).bytes) }
{
    if r.len() <= SMALL {
        return undo_within::<SMALL>(r);
    }
    undo_within::<LARGEST>(r)
}
