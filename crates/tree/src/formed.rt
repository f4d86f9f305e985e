// The test that a room is a well-formed tree.
ghost use Rattle.std.specs.Prelude.{◌≡◌, ◌<◌};
ghost use Rattle.inherit.specs.Compute.{rule_ok};
ghost use Rattle.tree.specs.General.{every};
ghost use Rattle.tree.specs.Held.{parent_in};
ghost use Rattle.tree.specs.Room.{own_data as Room·own, step as Room-step};
ghost use Rattle.tree.specs.Formed.{counts_ok, settings_ok, placed_in as Formed·placed, object_ok, again_ok, step_ok, standing as Formed·standing, steps_ok, formed as Formed·formed};

use crate::held::{alike, block_ok, number_in, slot_ok};
use crate::places::{
    DEFAULT_AT, OBJECT, OBJECTS_AT, OWN_DATA, SLOT, STEP, STEP_DATA_AT, own, settings, slot, step,
};
use octets::{byte_in, part_of};

#[tactic(auto, unfolding(crate::specs::Formed::counts_ok))]
fn head_ok(r: &[u8]) -> bool
    ensures { result ≡ counts_ok r.now }
{
    let n = number_in(r, 0);
    let s = number_in(r, 1);
    OBJECTS_AT <= r.len()
        && 1 <= n
        && n <= 64
        && s <= 64
        && number_in(r, 2) <= n
        && number_in(r, 3) <= s
        && OBJECTS_AT + n * OBJECT + s * STEP <= r.len()
}

// Rule 1 or 2, of a room's byte. The computation's own test makes its `Rule`: to share it, that type would be public for one line here, which is no plainer.
#[tactic(auto, unfolding(inherit::specs::Compute::rule_ok))]
pub(crate) fn rule_ok(rule: u32) -> bool
    ensures { result ≡ rule_ok rule }
{
    rule == 1 || rule == 2
}

#[tactic(auto, unfolding(crate::specs::Formed::settings_ok))]
fn settings_ok(e: &[u8]) -> bool
    ensures { result ≡ settings_ok e.now }
{
    rule_ok(u32::from(byte_in(e, 0))) && slot_ok(part_of(e, DEFAULT_AT, SLOT))
}

// Whether p may be the parent of object i; `nobody` is no parent: C's number for none (add), or the byte of docs/ROOM.md.
#[tactic(auto, unfolding(crate::specs::Formed::placed_in))]
pub(crate) fn placed(r: &[u8], nobody: usize, i: usize, p: usize) -> bool
    requires { i < 256 }
    ensures { result ≡ Formed·placed (λ j. Room·own j r.now) i (parent_in nobody p) }
{
    if p == nobody {
        return i == 0;
    }
    p < i && byte_in(own(r, p), 1) == 1
}

#[tactic(auto, unfolding(crate::specs::Formed::object_ok))]
fn object_ok(r: &[u8], i: usize) -> bool
    requires { i < 256 }
    ensures { result ≡ object_ok r.now i }
{
    let b = own(r, i);
    block_ok(b) && placed(r, 255, i, number_in(b, 0)) && slot_ok(slot(r, i))
}

fn objects_ok(r: &[u8], n: usize) -> bool
    requires { n < 256 }
    ensures { result ≡ every (object_ok r.now) n }
{
    (0..n).all(|i| object_ok(r, i))
}

// A step that puts own data back: of an object that stands, good by itself, and alike.
#[tactic(auto, unfolding(crate::specs::Formed::again_ok))]
fn again_ok(r: &[u8], c: usize, u: &[u8]) -> bool
    requires { c < 256 }
    ensures { result ≡ again_ok (λ j. Room·own j r.now) c u.now }
{
    let i = number_in(u, 1);
    let saved = part_of(u, STEP_DATA_AT, OWN_DATA);
    i < c && block_ok(saved) && alike(saved, own(r, i))
}

// Whether a step applies where c objects stand: that of an add is of the last of them.
#[tactic(auto, unfolding(crate::specs::Formed::step_ok))]
fn step_ok(r: &[u8], c: usize, u: &[u8]) -> bool
    requires { c < 256 }
    ensures { result ≡ step_ok (λ j. Room·own j r.now) c u.now }
{
    match byte_in(u, 0) {
        1 => number_in(u, 1) + 1 == c,
        2 => again_ok(r, c, u),
        _ => false,
    }
}

// How many objects stand before a step.
pub(crate) fn standing(c: usize, u: &[u8]) -> usize
    ensures { result ≡ Formed·standing c u.now }
{
    if byte_in(u, 0) == 1 {
        c.saturating_sub(1)
    } else {
        c
    }
}

// The m kept steps of a room with object limit n, where c objects stand.
fn steps_ok(r: &[u8], n: usize, m: usize, c: usize) -> bool
    requires { (n < 256) × ((m < 256) × (c < 256)) }
    ensures { result ≡ steps_ok (λ j. Room·own j r.now) (λ j. Room-step n j r.now) m 0 c }
{
    let mut stand = c;
    for j in 0..m {
        let u = step(r, n, j);
        if !step_ok(r, stand, u) {
            return false;
        }
        stand = standing(stand, u);
    }
    true
}

#[tactic(auto, unfolding(crate::specs::Formed::formed))]
pub(crate) fn formed(r: &[u8]) -> bool
    ensures { result ≡ Formed·formed r.now }
{
    let c = number_in(r, 2);
    head_ok(r)
        && settings_ok(settings(r))
        && objects_ok(r, c)
        && steps_ok(r, number_in(r, 0), number_in(r, 3), c)
}
