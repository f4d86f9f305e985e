// Over a list's entries once, with the mask of the bits not yet decided.
ghost use Rattle.std.specs.Prelude.{◌≡◌, drop};
ghost use Rattle.list.specs.Entry.{access, sid_end};
ghost use Rattle.list.specs.List.{cut};
ghost use Rattle.list.specs.Good.{Listed};
ghost use Rattle.access.specs.Held.{held_of};
ghost use Rattle.access.specs.Open.{type_counts, is_allow, said_counts, condition_counts};
ghost use Rattle.access.specs.Inner.Decide.{weighs, left_after, decided};

use crate::held::Asker;
use crate::seen::Seen;
use condition::Truth;

#[tactic(auto, unfolding(crate::specs::Open::is_allow))]
fn is_allow(kind: u8) -> bool
    ensures { result ≡ is_allow kind }
{
    matches!(kind, 0 | 5 | 9)
}

// A true condition applies, a false one passes the entry over; unknown grants nothing in an allow, and denies in a deny.
#[tactic(auto, unfolding(crate::specs::Open::said_counts))]
fn said_counts(said: Truth, kind: u8) -> bool
    ensures { result ≡ said_counts said (is_allow kind) }
{
    match said {
        Truth::False => false,
        Truth::True => true,
        Truth::Unknown => !is_allow(kind),
    }
}

impl<'a> Seen<'a> {
    // An object entry counts only without an ObjectType or with the given one.
    #[tactic(auto, unfolding(crate::specs::Open::type_counts))]
    fn type_counts(&self, guid: [u8; 16]) -> bool
        ensures { result ≡ type_counts guid self.now.bytes.now }
    {
        !list::is_object(self.look.kind)
            || self.look.word & 1 == 0
            || list::same_guid(list::guid_at(self.bytes, 12), guid)
    }

    // A conditional entry, whose SID ends at `end`, counts by what its expression says.
    #[tactic(auto, unfolding(crate::specs::Open::condition_counts))]
    fn condition_counts(&self, end: usize, table: &[u8]) -> bool
        requires { end ≡ sid_end self.now.bytes.now }
        ensures { result ≡ condition_counts table.now self.now.bytes.now }
    {
        !list::is_conditional(self.look.kind)
            || said_counts(
                condition::said(&self.bytes[end..self.look.size], table),
                self.look.kind,
            )
    }

    // Whether it counts and has a bit that isn't decided yet.
    #[tactic(auto, unfolding(crate::specs::Inner::Decide::weighs, crate::specs::Open::entry_counts, crate::specs::Open::applies))]
    fn weighs(&self, asker: &Asker, left: u32) -> bool
        ensures { result ≡ weighs asker.now.guid asker.now.table.now (held_of asker.now.held.bytes.now) left self.now.bytes.now }
    {
        if self.look.mask & left == 0 {
            return false;
        }
        if self.look.flags & 8 != 0 {
            return false;
        }
        if !self.type_counts(asker.guid) {
            return false;
        }
        let sid = self.look.sid;
        let end = sid + list::sid_len_in(self.bytes, sid);
        asker.names(&self.bytes[sid..end]) && self.condition_counts(end, asker.table)
    }

    // What it leaves to decide, none where a bit is denied.
    #[tactic(auto, unfolding(crate::specs::Inner::Decide::left_after))]
    fn leaves(&self, asker: &Asker, left: u32) -> Option<u32>
        ensures { result ≡ left_after asker.now.guid asker.now.table.now (held_of asker.now.held.bytes.now) left self.now.bytes.now }
    {
        if !self.weighs(asker, left) {
            return Some(left);
        }
        if is_allow(self.look.kind) {
            return Some(left ^ (left & self.look.mask));
        }
        None
    }
}

// Whether the n entries of a list grant each wanted bit: it stops as soon as that is decided.
pub(crate) fn decide(list: &[u8], n: usize, asker: &Asker, wanted: u32) -> bool
    requires { Listed access list.now n }
    ensures { result ≡ decided asker.now.guid asker.now.table.now (held_of asker.now.held.bytes.now) wanted (cut n (drop 8 list.now)) }
{
    let mut left = wanted;
    let mut rest = &list[8..];
    'entries: for _ in 0..n {
        if left == 0 {
            return true;
        }
        let e = Seen {
            bytes: rest,
            look: list::look_at(rest),
        };
        let Some(still) = e.leaves(asker, left) else {
            return false;
        };
        left = still;
        rest = &rest[e.look.size..];
    }
    left == 0
}
