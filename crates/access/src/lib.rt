// Who may open an object, and a list's entries stepped through where they lie.
#![tactic(auto)]

ghost use Rattle.std.specs.Prelude.{◌≡◌, [], option_copied};
ghost use Rattle.access.specs.Open.{may_open_of, question_of};
ghost use Rattle.access.specs.Walk.{pointed_of};
ghost use Rattle.access.specs.Inner.Decide.{lent_fault};
ghost use Rattle.access.specs.Inner.Seek.{Walking, seek_from};

mod decide;
mod held;
mod seen;
mod steps;
mod walkers;

use decide::decide;
use held::{Asker, Sids, held_fault};
use octets::half_in;
use refusal::{Fault, Refusal};
pub use steps::{Found, next_at, step_at, walked};
pub use walkers::{Walker, first, make, past, step};

// A fault of the held bytes, or of the table.
fn lent_fault(held: &[u8], table: &[u8]) -> Result<(), Refusal>
    ensures { result ≡ lent_fault held.now table.now }
{
    held_fault(held)?;
    if !condition::table_ok(table) {
        return Err(Refusal::Table);
    }
    Ok(())
}

// Whether a person who holds these SIDs, laid end to end, may open an object of that type with that list, or with none, for what is wanted; what
// conditions say is by the table of names. A public call, of which `may_open` is one: its parts stay parameters, as RULES 10.2 has them.
pub fn may_open_with(
    list: Option<&[u8]>,
    guid: [u8; 16],
    held: &[u8],
    wanted: u32,
    table: &[u8],
) -> Result<bool, Fault>
    ensures { result ≡ may_open_of (question_of (option_copied list.entry) guid held.now wanted table.now) }
{
    if wanted & 0xF0000000 != 0 {
        return Err(Fault::from(Refusal::Generic));
    }
    let Some(list) = list else {
        lent_fault(held, table)?;
        return Ok(true);
    };
    let read = list::check(list)?;
    lent_fault(held, table)?;
    let asker = Asker {
        guid,
        held: Sids { bytes: held },
        table,
    };
    Ok(decide(list, read.count as usize, &asker, wanted))
}

// The same with no table: no name has a number.
pub fn may_open(
    list: Option<&[u8]>,
    guid: [u8; 16],
    held: &[u8],
    wanted: u32,
) -> Result<bool, Fault>
    ensures { result ≡ may_open_of (question_of (option_copied list.entry) guid held.now wanted []) }
{
    may_open_with(list, guid, held, wanted, &[])
}

// Where the first entry at or after a place begins, of `count` good entries that end where the bytes do; their end where there is none. They were tested,
// and are gone past by their sizes.
fn seek(entries: &[u8], count: u16, place: usize) -> usize
    requires { Walking entries.now count 8 }
    ensures { result ≡ seek_from count entries.now 8 place }
{
    let mut at: usize = 8;
    for _ in 0..count {
        if place <= at {
            return at;
        }
        at += half_in(entries, at + 2) as usize;
    }
    at
}

// The first entry that begins at or after a place, of a list that is tested as the reader tests it.
pub fn step_from(list: &[u8], place: usize) -> Result<Option<Found>, Fault>
    ensures { result ≡ pointed_of list.now place }
{
    let read = list::check(list)?;
    let entries = &list[..read.end as usize];
    Ok(step_at(entries, seek(entries, read.count, place)))
}
