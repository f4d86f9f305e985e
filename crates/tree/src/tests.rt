// The tests of what a call is given, in the order in which a call makes them.
ghost use Rattle.std.specs.Prelude.{◌≡◌};
ghost use Rattle.tree.specs.Held.{parent_in, lent_list};
ghost use Rattle.tree.specs.Calls.{nobody};
ghost use Rattle.tree.specs.Inner.Faults.{test_object, test_add, test_list, test_owners, test_short};

use crate::formed::{formed, placed};
use crate::held::{number_in, ordinary};
use crate::places::LONGEST_LIST;
use refusal::{Fault, Refusal};

// The room, and an object that stands in it.
#[tactic(auto, unfolding(crate::specs::Inner::Faults::test_object, octets::specs::Order::need))]
pub(crate) fn test_object(r: &[u8], i: usize) -> Result<(), Refusal>
    ensures { result ≡ test_object r.now i }
{
    if !formed(r) {
        return Err(Refusal::Tree);
    }
    if number_in(r, 2) <= i {
        return Err(Refusal::Object);
    }
    Ok(())
}

// The room, the parent of a new object, and place for it.
#[tactic(auto, unfolding(crate::specs::Inner::Faults::test_add, octets::specs::Order::need))]
pub(crate) fn test_add(r: &[u8], parent: usize) -> Result<(), Refusal>
    ensures { result ≡ test_add r.now (parent_in nobody parent) }
{
    if !formed(r) {
        return Err(Refusal::Tree);
    }
    let c = number_in(r, 2);
    if !placed(r, 0xFFFFFFFF, c, parent) {
        return Err(Refusal::Object);
    }
    if number_in(r, 0) <= c {
        return Err(Refusal::Full);
    }
    Ok(())
}

// A list that is given or not; the caller's number says which list of the call it is.
pub(crate) fn test_list(list: Option<&[u8]>, which: u8) -> Result<(), Fault>
    ensures { result ≡ test_list (lent_list list.entry) which }
{
    let Some(s) = list else {
        return Ok(());
    };
    match list::check(s) {
        Ok(_) => Ok(()),
        Err(fault) => Err(fault.in_list(which)),
    }
}

// An object's owner and group: neither a placeholder.
#[tactic(auto, unfolding(crate::specs::Inner::Faults::test_owners, octets::specs::Order::need))]
pub(crate) fn test_owners(owner: &[u8], group: &[u8]) -> Result<(), Refusal>
    ensures { result ≡ test_owners owner.now group.now }
{
    if !ordinary(owner) || !ordinary(group) {
        return Err(Refusal::Identity);
    }
    Ok(())
}

// At most 1,024 bytes, where it is given.
#[tactic(auto, unfolding(crate::specs::Inner::Faults::test_short, octets::specs::Order::need, crate::specs::Model::short_if))]
pub(crate) fn test_short(list: Option<&[u8]>) -> Result<(), Refusal>
    ensures { result ≡ test_short (lent_list list.entry) }
{
    match list {
        Some(s) if LONGEST_LIST < s.len() => Err(Refusal::Room),
        _ => Ok(()),
    }
}
