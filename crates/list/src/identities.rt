// Identities (SIDs) and GUIDs, by value.
ghost use Rattle.std.specs.Prelude.{◌≡◌, ◌+◌, ◌≤◌, length, drop};
ghost use Rattle.octets.specs.Bytes.{same_bytes, guid_at};
ghost use Rattle.octets.specs.Absent.{unless_zero};
ghost use Rattle.list.specs.Identity.{length_of_sid, whole_sid, is_sid, placeholder_of, placeholder_in, identity_of, identity_in, bytes_of, made_of, placeholder_sid};

use octets::{byte_in, same_bytes};
use refusal::Refusal;

// An identity: its bytes, zeros up to 68, and how many bytes it has. Fixed memory: the project allocates nothing, and `placeholder_sid` and `made_of` speak of both.
#[derive(Clone, Copy, Debug, PartialEq, Eq)]
pub struct Sid {
    pub bytes: [u8; 68],
    pub len: usize,
}

// The two that stand for others until an object has a creator.
#[derive(Clone, Copy, Debug, PartialEq, Eq)]
pub enum Placeholder {
    Owner,
    Group,
}

impl Sid {
    // S-1-3-0. A constant's value calls no function, so that this one and the next are each written out.
    pub const CREATOR_OWNER: Sid = Sid {
        bytes: [
            1, 1, 0, 0, 0, 0, 0, 3, 0, 0, 0, 0, 0, 0, 0, 0, 0, 0, 0, 0, 0, 0, 0, 0, 0, 0, 0, 0, 0,
            0, 0, 0, 0, 0, 0, 0, 0, 0, 0, 0, 0, 0, 0, 0, 0, 0, 0, 0, 0, 0, 0, 0, 0, 0, 0, 0, 0, 0,
            0, 0, 0, 0, 0, 0, 0, 0, 0, 0,
        ],
        len: 12,
    };

    // S-1-3-1.
    pub const CREATOR_GROUP: Sid = Sid {
        bytes: [
            1, 1, 0, 0, 0, 0, 0, 3, 1, 0, 0, 0, 0, 0, 0, 0, 0, 0, 0, 0, 0, 0, 0, 0, 0, 0, 0, 0, 0,
            0, 0, 0, 0, 0, 0, 0, 0, 0, 0, 0, 0, 0, 0, 0, 0, 0, 0, 0, 0, 0, 0, 0, 0, 0, 0, 0, 0, 0,
            0, 0, 0, 0, 0, 0, 0, 0, 0, 0,
        ],
        len: 12,
    };

    // The constants by their bytes, all 68 of them, and their length.
    pub fn creator_owner() -> Sid
        ensures { result ≡ placeholder_sid 0 }
    {
        Sid::CREATOR_OWNER
    }

    pub fn creator_group() -> Sid
        ensures { result ≡ placeholder_sid 1 }
    {
        Sid::CREATOR_GROUP
    }

    // Made of bytes that are exactly one SID.
    pub fn from_bytes(b: &[u8]) -> Option<Sid>
        ensures { result ≡ made_of b.now }
    {
        if !is_sid(b) {
            return None;
        }
        let len = b.len();
        let mut bytes = [0; 68];
        bytes[..len].copy_from_slice(b);
        Some(Sid { bytes, len })
    }

    // Which placeholder it is.
    pub fn placeholder(self) -> Option<Placeholder>
        ensures { result ≡ placeholder_in (placeholder_of (bytes_of self)) }
    {
        placeholder_of(self.bytes.get(..self.len)?)
    }
}

// The length of the SID that begins at `at`; bytes that are not there count as 0.
#[tactic(auto, unfolding(crate::specs::Identity::length_of_sid, octets::specs::Absent::unless_zero))]
pub(crate) fn sid_at(s: &[u8], at: usize) -> Option<usize>
    ensures { result ≡ unless_zero (length_of_sid (drop at s.now)) }
{
    if byte_in(s, at) != 1 {
        return None;
    }
    let count = byte_in(s, at + 1);
    if 15 < count {
        return None;
    }
    Some(8 + 4 * count as usize)
}

// The same, 0 where none begins: `look-good` and whoever adds it to where the SID begins want the number.
pub fn sid_len_in(s: &[u8], at: usize) -> usize
    ensures { result ≡ length_of_sid (drop at s.now) }
{
    sid_at(s, at).unwrap_or(0)
}

// The length of the SID that lies whole at `at`.
pub fn sid_in(s: &[u8], at: usize) -> Option<usize>
    ensures { result ≡ unless_zero (whole_sid (drop at s.now)) }
{
    let len = sid_at(s, at)?;
    if s.len().saturating_sub(at) < len {
        return None;
    }
    Some(len)
}

fn is_sid(b: &[u8]) -> bool
    ensures { result ≡ is_sid b.now }
{
    sid_at(b, 0) == Some(b.len())
}

// Which placeholder the bytes are.
#[tactic(auto, unfolding(crate::specs::Identity::placeholder_of, crate::specs::Identity::placeholder_in))]
pub fn placeholder_of(s: &[u8]) -> Option<Placeholder>
    ensures { result ≡ placeholder_in (placeholder_of s.now) }
{
    if same_bytes(s, &Sid::CREATOR_OWNER.bytes[..12]) {
        return Some(Placeholder::Owner);
    }
    if same_bytes(s, &Sid::CREATOR_GROUP.bytes[..12]) {
        return Some(Placeholder::Group);
    }
    None
}

// Which placeholder the bytes are, where they are exactly one SID.
pub fn identity(b: &[u8]) -> Result<Option<Placeholder>, Refusal>
    ensures { result ≡ identity_in (identity_of b.now) }
{
    if !is_sid(b) {
        return Err(Refusal::Identity);
    }
    Ok(placeholder_of(b))
}

// The GUID at `at`, zeros where the bytes do not reach so far.
#[tactic(auto, unfolding(octets::specs::Bytes::guid_at))]
pub fn guid_at(s: &[u8], at: usize) -> [u8; 16]
    ensures { result ≡ guid_at s.now at }
{
    let Some(rest) = s.get(at..) else {
        return [0; 16];
    };
    match rest.first_chunk() {
        Some(guid) => *guid,
        None => [0; 16],
    }
}

// Sixteen bytes, compared as such.
#[tactic(auto, unfolding(octets::specs::Bytes::same_bytes))]
pub fn same_guid(a: [u8; 16], b: [u8; 16]) -> bool
    ensures { result ≡ same_bytes a b }
{
    a == b
}
