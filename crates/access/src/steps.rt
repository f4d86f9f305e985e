// A list's entries one after the other, on a slice and a number.
ghost use Rattle.std.specs.Prelude.{◌≡◌};
ghost use Rattle.access.specs.Walk.{walked_of, step_at, next_at};

use list::Entry;

// What is found at a place: an entry, with where it lies and where the next one begins.
#[derive(Clone, Copy)]
pub struct Found {
    pub at: usize,
    pub entry: Entry,
    pub next: usize,
}

// What stands at a place of a list that is cut where its entries end; none at the end.
pub fn step_at(entries: &[u8], at: usize) -> Option<Found>
    ensures { result ≡ step_at entries.now at }
{
    if entries.len() <= at {
        return None;
    }
    let entry = list::entry_of(&entries[at..], entries[0]).ok()?;
    Some(Found {
        at,
        entry,
        next: at + entry.size,
    })
}

// The place past what stands at a place; at the end the same place.
#[tactic(auto, unfolding(crate::specs::Walk::past_by))]
pub fn next_at(entries: &[u8], at: usize) -> usize
    ensures { result ≡ next_at entries.now at }
{
    step_at(entries, at).map_or(at, |found| found.next)
}

// The list up to where its entries end; nothing of one that doesn't read as done.
pub fn walked(list: &[u8]) -> &[u8]
    ensures { result.now ≡ walked_of list.now }
{
    match list::check(list) {
        Ok(read) => &list[..read.end as usize],
        Err(_) => &[],
    }
}
