// The SIDs that a person holds, laid end to end: they are compared where they lie.
ghost use Rattle.std.specs.Prelude.{◌≡◌, true, ◌≤◌, length};
ghost use Rattle.octets.specs.Bytes.{same_bytes, among};
ghost use Rattle.access.specs.Held.{held_of, reaches_end};
ghost use Rattle.access.specs.Inner.Decide.{held_fault, last_of};

use list::sid_in;
use octets::same_bytes;
use refusal::Refusal;

const MOST_HELD: usize = 32;

// Refused where the bytes aren't SIDs to their end, and where there are more than 32 of them.
pub(crate) fn held_fault(held: &[u8]) -> Result<(), Refusal>
    ensures { result ≡ held_fault held.now }
{
    let mut rest = held;
    let mut count: usize = 0;
    // a while: how long one is lies in its own bytes, and what is no SID ends it
    while !rest.is_empty() {
        let len = sid_in(rest, 0).ok_or(Refusal::Identity)?;
        rest = &rest[len..];
        count += 1;
    }
    if MOST_HELD < count {
        return Err(Refusal::Types);
    }
    Ok(())
}

// A SID that is held.
#[derive(Clone, Copy)]
pub(crate) struct HeldSid<'a> {
    pub bytes: &'a [u8],
    pub ghost eight: { 8 ≤ length bytes.now },
}

impl<'a> HeldSid<'a> {
    // Whether it is that one. `mark` is the first byte of that one's last number: there, and in the next byte, SIDs of one domain differ.
    fn is(&self, sid: &[u8], mark: u8) -> bool
        requires { (8 ≤ length sid.now) × (mark ≡ last_of 4 sid.now) }
        ensures { result ≡ same_bytes self.now.bytes.now sid.now }
    {
        let one = self.bytes;
        one[one.len() - 4] == mark
            && one[one.len() - 3] == sid[sid.len() - 3]
            && same_bytes(one, sid)
    }
}

// The held SIDs that are still to come, each as long as its second byte says.
#[derive(Clone, Copy)]
pub(crate) struct Sids<'a> {
    pub bytes: &'a [u8],
    pub ghost whole: { reaches_end bytes.now ≡ true },
}

impl<'a> Iterator for Sids<'a> {
    ghost use Rattle.std.specs.Iterator.{YieldsFirstBy, item_count};
    ghost use Rattle.access.specs.Inner.Still.{still, own_bytes};

    type Item = HeldSid<'a>;

    ghost next_gives = { YieldsFirstBy own_bytes still };

    ghost remaining = { item_count still };

    fn next(&mut self) -> Option<HeldSid<'a>> {
        if self.bytes.is_empty() {
            return None;
        }
        let (bytes, rest) = self.bytes.split_at(8 + 4 * self.bytes[1] as usize);
        self.bytes = rest;
        Some(HeldSid { bytes })
    }
}

// What is asked for an object of a type by a person who holds these SIDs, under a table of names.
#[derive(Clone, Copy)]
pub(crate) struct Asker<'h, 't> {
    pub guid: [u8; 16],
    pub held: Sids<'h>,
    pub table: &'t [u8],
}

impl<'h, 't> Asker<'h, 't> {
    // Whether a SID is among those held.
    pub(crate) fn names(&self, sid: &[u8]) -> bool
        requires { 8 ≤ length sid.now }
        ensures { result ≡ among sid.now (held_of self.now.held.bytes.now) }
    {
        let mark = sid[sid.len() - 4];
        let mut sids = self.held;
        sids.any(|one| one.is(sid, mark))
    }
}
