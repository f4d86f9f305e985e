// The kept steps, the latest first: a copy of the room with one more of them, and with one less.
ghost use Rattle.std.specs.Prelude.{◌≡◌, ◌∷◌, ◌+◌, ◌≤◌, ◌<◌, length};
ghost use Rattle.octets.specs.Bytes.{put_at};
ghost use Rattle.tree.specs.Room.{object_limit, step_limit, kept_steps, room_for, own_data as Room·own, area};
ghost use Rattle.tree.specs.Inner.Heads.{Head};
ghost use Rattle.tree.specs.Calls.{step_kept, step_gone};

use crate::held::number_in;
use crate::places::{OBJECT, OBJECTS_AT, STEP, own};
use crate::writes::lay;
use octets::part_of;

// A step at a place; from here on its tag is a byte of the room (docs/ROOM.md).
fn lay_step(w: &mut [u8], at: usize, tag: u8, i: u8, b: &[u8])
    requires { at + 2 + length b.now ≤ length w.old }
    ensures { w.new ≡ put_at at (tag ∷ i ∷ b.now) w.old }
{
    w[at] = tag;
    w[at + 1] = i;
    lay(w, at + 2, b);
}

// The room's area to w, with a step kept for object i in front of the others, where the limit allows one.
fn push_some(r: &[u8], w: &mut [u8], tag: u8, i: usize)
    requires { Head r.now × ((0 < step_limit r.now) × ((length w.old ≡ room_for (object_limit r.now) (step_limit r.now)) × (i < object_limit r.now))) }
    ensures { w.new ≡ step_kept (tag ∷ i ∷ Room·own i (area r.now)) (area r.now) }
{
    let n = number_in(r, 0);
    let s = number_in(r, 1);
    let k = number_in(r, 3);
    let at = OBJECTS_AT + n * OBJECT;
    let room = at + s * STEP;
    lay(w, 0, part_of(r, 0, room));
    lay_step(w, at, tag, i as u8, own(r, i));
    lay(w, at + STEP, part_of(r, at, (s - 1) * STEP));
    w[3] = s.min(k + 1) as u8;
}

// The room's area to w, with a step kept for object i.
pub(crate) fn push(r: &[u8], w: &mut [u8], tag: u8, i: usize)
    requires { Head r.now × ((length w.old ≡ room_for (object_limit r.now) (step_limit r.now)) × (i < object_limit r.now)) }
    ensures { w.new ≡ step_kept (tag ∷ i ∷ Room·own i (area r.now)) (area r.now) }
{
    if number_in(r, 1) == 0 {
        let n = number_in(r, 0);
        lay(w, 0, part_of(r, 0, OBJECTS_AT + n * OBJECT));
        return;
    }
    push_some(r, w, tag, i);
}

// The room's area to w, with the latest step taken off.
pub(crate) fn pop(r: &[u8], w: &mut [u8])
    requires { Head r.now × ((0 < kept_steps r.now) × (length w.old ≡ room_for (object_limit r.now) (step_limit r.now))) }
    ensures { w.new ≡ step_gone (area r.now) }
{
    let n = number_in(r, 0);
    let s = number_in(r, 1);
    let k = number_in(r, 3);
    let at = OBJECTS_AT + n * OBJECT;
    let room = at + s * STEP;
    lay(w, 0, part_of(r, 0, room));
    lay(w, at, part_of(r, at + STEP, (s - 1) * STEP));
    w[3] = (k - 1) as u8;
}
