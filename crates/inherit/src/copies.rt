// Which entries are copied, and which flags the copies get.
ghost use Rattle.std.specs.Prelude.{◌≡◌, cond};
ghost use Rattle.octets.specs.Bytes.{has as Given·has, among};
ghost use Rattle.inherit.specs.Copies.{type_applies, takes_first, takes_second};
ghost use Rattle.inherit.specs.Inner.Emit.{given_by, picked};

use crate::entries::Entry;
use crate::terms::Terms;

// A pass over the entries of a list: the parent's first part, its second, the creator's own entries, all of the default list.
#[derive(Clone, Copy, Debug, PartialEq, Eq)]
pub enum Pass {
    First,
    Second,
    Own,
    All,
}

// Which list entries come from: the creator's own, the parent's, the default list.
#[derive(Clone, Copy, Debug, PartialEq, Eq)]
pub enum Origin {
    Own,
    Parent,
    Default,
}

pub(crate) fn has(flags: u8, bit: u8) -> bool
    ensures { result ≡ Given·has bit flags }
{
    flags & bit != 0
}

// Apart, so that the test of an entry without an ObjectType stays short enough for the loops.
#[inline(never)]
fn among(guid: [u8; 16], types: &[[u8; 16]]) -> bool
    ensures { result ≡ among guid types.now }
{
    types.iter().any(|one| *one == guid)
}

// Types 00 and 01 always, object types if they have an ObjectType that is among the object types.
#[inline(always)]
fn type_applies(entry: &Entry, terms: &Terms) -> bool
    ensures { result ≡ type_applies (given_by terms.now) entry.now.bytes.now }
{
    !list::is_object(entry.kind())
        || (entry.look().word & 1 != 0 && among(list::guid_at(entry.bytes, 12), terms.types))
}

// CI for a container, OI for another object.
fn inherits(container: bool, flags: u8) -> bool
    ensures { result ≡ Given·has (cond container 2 1) flags }
{
    has(flags, if container { 2 } else { 1 })
}

#[inline(always)]
fn takes_first(entry: &Entry, terms: &Terms) -> bool
    ensures { result ≡ takes_first (given_by terms.now) entry.now.bytes.now }
{
    inherits(terms.container, entry.flags()) && type_applies(entry, terms)
}

// Only for a container: an inheritable entry without NP.
fn takes_second(entry: &Entry, terms: &Terms) -> bool
    ensures { result ≡ takes_second (given_by terms.now) 4 entry.now.bytes.now }
{
    let flags = entry.flags();
    terms.container && has(flags, 3) && !has(flags, 4)
}

// The flags of the copy, where a pass takes the entry. The passes are four and are all here: a closure for each would be no plainer.
#[inline(always)]
pub(crate) fn pick(pass: Pass, entry: &Entry, terms: &Terms) -> Option<u8>
    ensures { result ≡ picked (given_by terms.now) pass entry.now.bytes.now }
{
    let flags = entry.flags();
    match pass {
        Pass::First => takes_first(entry, terms).then_some(16),
        Pass::Second => takes_second(entry, terms).then_some(flags | 24),
        Pass::Own => (!has(flags, 16)).then_some(flags),
        Pass::All => Some(flags),
    }
}
