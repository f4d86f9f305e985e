// A pass over a list: how much it gives, and the entries themselves, straight into what is left of the result.
ghost use Rattle.std.specs.Prelude.{◌≡◌, ◌||◌, ◌*◌, ◌≤◌, length};
ghost use mathlib.Core.List.{flatten};
ghost use Rattle.octets.specs.Bytes.{front};
ghost use Rattle.inherit.specs.Inner.Still.{still};
ghost use Rattle.inherit.specs.Inner.Emit.{given_by, copy_length, copy_of, emit_of, emit_all, both as Emit·both, times_of, measure_from, measure_all};

use crate::copies::{Origin, Pass, pick};
use crate::entries::{Entries, Entry};
use crate::last::{Parted, in_place, last_mask, put_entry, put_head};
use crate::terms::Terms;

// How many bytes and entries, and whether an object entry is among them.
#[derive(Clone, Copy)]
pub struct Measure {
    pub bytes: usize,
    pub count: usize,
    pub object: bool,
}

const NOTHING: Measure = Measure {
    bytes: 0,
    count: 0,
    object: false,
};

// How long a copy of an entry is.
fn copy_len(entry: &Entry, terms: &Terms) -> usize
    ensures { result ≡ copy_length entry.now.bytes.now terms.now.owner.now terms.now.group.now }
{
    let t = entry.bytes;
    let look = entry.look();
    let sid = look.sid;
    if list::placeholder_at(t, sid).is_none() {
        return look.size;
    }
    let end = sid + list::sid_len_in(t, sid);
    let put_in = in_place(&t[sid..end], terms);
    sid + put_in.len() + (look.size - end)
}

// A copy of an entry with these flags, as the last step leaves it, on the front of what is left of the result. Unless its SID is a placeholder, only its head changes.
fn put_copy(out: &mut [u8], entry: &Entry, flags: u8, terms: &Terms) -> usize
    requires { copy_length entry.now.bytes.now terms.now.owner.now terms.now.group.now ≤ length out.old }
    ensures { (result ≡ copy_length entry.now.bytes.now terms.now.owner.now terms.now.group.now)
        × (out.new ≡ front (copy_of (given_by terms.now) flags entry.now.bytes.now) out.old) }
{
    let t = entry.bytes;
    let look = entry.look();
    let sid = look.sid;
    let size = look.size;
    let mask = last_mask(terms.rule, terms.mapping, look.mask);
    if list::placeholder_at(t, sid).is_none() {
        put_head(out, look.kind, flags, size, mask);
        octets::put(&mut out[8..], &t[8..size]);
        return size;
    }
    let end = sid + list::sid_len_in(t, sid);
    let parted = Parted {
        kind: look.kind,
        flags,
        mask,
        middle: &t[8..sid],
        sid: in_place(&t[sid..end], terms),
        tail: &t[end..size],
    };
    put_entry(out, &parted)
}

// Two measures together.
pub(crate) fn both(a: Measure, b: Measure) -> Measure
    requires { (a.bytes ≤ 34359738368) × (b.bytes ≤ 34359738368) × (a.count ≤ 4294967296) × (b.count ≤ 4294967296) }
    ensures { result ≡ Emit·both a b }
{
    Measure {
        bytes: a.bytes + b.bytes,
        count: a.count + b.count,
        object: a.object || b.object,
    }
}

// How many copies an entry gives; one of the parent's may give one to each part. The lists are three and are all here: a closure for each would be no plainer.
fn copies_of(origin: Origin, entry: &Entry, terms: &Terms) -> usize
    ensures { result ≡ times_of (given_by terms.now) origin entry.now.bytes.now }
{
    match origin {
        Origin::Own => usize::from(pick(Pass::Own, entry, terms).is_some()),
        Origin::Parent => {
            let first = pick(Pass::First, entry, terms);
            let second = pick(Pass::Second, entry, terms);
            usize::from(first.is_some()) + usize::from(second.is_some())
        }
        Origin::Default => usize::from(pick(Pass::All, entry, terms).is_some()),
    }
}

// What an entry gives, measured.
fn measure_one(entry: &Entry, origin: Origin, terms: &Terms) -> Measure
    ensures { result ≡ measure_from (given_by terms.now) origin entry.now.bytes.now }
{
    let times = copies_of(origin, entry, terms);
    if times == 0 {
        return NOTHING;
    }
    Measure {
        bytes: times * copy_len(entry, terms),
        count: times,
        object: list::is_object(entry.kind()),
    }
}

// What an entry gives, on the front of what is left of the result: how many bytes.
fn write_one(out: &mut [u8], entry: &Entry, pass: Pass, terms: &Terms) -> usize
    requires { length (flatten (emit_of (given_by terms.now) pass entry.now.bytes.now)) ≤ length out.old }
    ensures { (result ≡ length (flatten (emit_of (given_by terms.now) pass entry.now.bytes.now)))
        × (out.new ≡ front (flatten (emit_of (given_by terms.now) pass entry.now.bytes.now)) out.old) }
{
    let Some(flags) = pick(pass, entry, terms) else {
        return 0;
    };
    put_copy(out, entry, flags, terms)
}

// What entries give, measured: all copies of an entry in one look at it. In place three times, so that where the entries come from isn't asked of each.
#[inline(always)]
pub(crate) fn measure_pass(entries: Entries, origin: Origin, terms: &Terms) -> Measure
    ensures { (result ≡ measure_all (given_by terms.now) origin (still entries.entry))
        × (result.bytes ≤ 131206 * entries.entry.left) × (result.count ≤ 2 * entries.entry.left) }
{
    let mut total = NOTHING;
    for entry in entries {
        total = both(total, measure_one(&entry, origin, terms));
    }
    total
}

// What entries give, on the front of what is left of the result.
pub(crate) fn write_pass(out: &mut [u8], entries: Entries, pass: Pass, terms: &Terms) -> usize
    requires { length (flatten (emit_all (given_by terms.now) pass (still entries))) ≤ length out.old }
    ensures { (result ≡ length (flatten (emit_all (given_by terms.now) pass (still entries.entry))))
        × (out.new ≡ front (flatten (emit_all (given_by terms.now) pass (still entries.entry))) out.old) }
{
    let mut to = 0;
    for entry in entries {
        to += write_one(&mut out[to..], &entry, pass, terms);
    }
    to
}
