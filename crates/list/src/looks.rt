// One look at an entry. In a list that was read every entry was tested; a look tests nothing again.
ghost use Rattle.std.specs.Prelude.{◌≡◌, take, drop};
ghost use Rattle.list.specs.Identity.{length_of_sid, placeholder_of, placeholder_in};
ghost use Rattle.list.specs.Look.{look_of};

use crate::entries::{guids_len, is_object};
use crate::identities::{Placeholder, placeholder_of};
use octets::{byte_in, half_in, word_in};

// An entry's fields as they lie there; `sid` is where its SID begins. An `Entry` that held a `Look` would be no plainer: each of its fields would be read as `entry.look.kind`.
#[derive(Clone, Copy, Debug, PartialEq, Eq)]
pub struct Look {
    pub kind: u8,
    pub flags: u8,
    pub size: usize,
    pub mask: u32,
    pub word: u32,
    pub sid: usize,
}

// Looks at the entry that `t` begins with; bytes that are not there count as 0. The last ones of the head are read first: where they are there, so are the others.
#[inline(always)]
#[tactic(auto, unfolding(crate::specs::Entry::head_of, crate::specs::Entry::word_after))]
pub fn look_at(t: &[u8]) -> Look
    ensures { result ≡ look_of t.now }
{
    let mask = word_in(t, 4);
    let size = half_in(t, 2) as usize;
    let flags = byte_in(t, 1);
    let kind = byte_in(t, 0);
    let (word, sid) = if is_object(kind) {
        let word = word_in(t, 8);
        (word, 12 + guids_len(word))
    } else {
        (0, 8)
    };
    Look {
        kind,
        flags,
        size,
        mask,
        word,
        sid,
    }
}

// Which placeholder the SID at `at` is. Twelve bytes tell: a placeholder says its own length.
pub fn placeholder_at(s: &[u8], at: usize) -> Option<Placeholder>
    ensures { result ≡ placeholder_in (placeholder_of (take (length_of_sid (drop at s.now)) (drop at s.now))) }
{
    placeholder_of(s.get(at..)?.get(..12)?)
}
