// The last step: what stands in a SID's place, the mask, and an entry's bytes.
ghost use Rattle.std.specs.Prelude.{◌≡◌, [], ◌∷◌, ◌++◌, ◌+◌, ◌≤◌, length};
ghost use Rattle.octets.specs.Bytes.{front, spell};
ghost use Rattle.list.specs.Identity.{placeholder_of};
ghost use Rattle.list.specs.Entry.{entry_bytes};
ghost use Rattle.inherit.specs.Last.{in_place, joined as Last·joined, mapped as Last·mapped, last_mask};
ghost use Rattle.inherit.specs.Inner.Rules.{number_by};

use crate::Mapping;
use crate::rules::Rule;
use crate::terms::Terms;
use list::Placeholder;

// The owner's bytes for creator owner, the group's for creator group, else the SID's own.
pub(crate) fn in_place<'a>(sid: &'a [u8], terms: &Terms<'a>) -> &'a [u8]
    ensures { result.now ≡ in_place (placeholder_of sid.now) sid.now terms.now.owner.now terms.now.group.now }
{
    match list::placeholder_of(sid) {
        Some(Placeholder::Owner) => terms.owner,
        Some(Placeholder::Group) => terms.group,
        None => sid,
    }
}

// A mapping is joined where the mask as it came has the bit.
fn joined(bit: u32, came: u32, mask: u32, mapping: u32) -> u32
    ensures { result ≡ Last·joined bit came mask mapping }
{
    if came & bit != 0 {
        mask | mapping
    } else {
        mask
    }
}

// The printed text's mask: three mappings joined.
fn mapped(mapping: Mapping, mask: u32) -> u32
    ensures { result ≡ Last·mapped mapping mask }
{
    let read = joined(0x8000_0000, mask, mask, mapping.read);
    let write = joined(0x4000_0000, mask, read, mapping.write);
    joined(0x2000_0000, mask, write, mapping.execute)
}

// The mask as the last step leaves it: the printed text's; or mended, with the fourth mapping joined, and then without the generic bits.
// Where it has none of these bits it stays as it came.
pub(crate) fn last_mask(rule: Rule, mapping: Mapping, mask: u32) -> u32
    ensures { result ≡ last_mask (number_by rule) mapping mask }
{
    if mask < 0x1000_0000 {
        return mask;
    }
    let three = mapped(mapping, mask);
    let four = joined(0x1000_0000, mask, three, mapping.all);
    match rule {
        Rule::Mended => four & 0x0FFF_FFFF,
        Rule::Printed => three,
    }
}

// An entry's first eight bytes.
pub(crate) fn put_head(out: &mut [u8], kind: u8, flags: u8, size: usize, mask: u32)
    requires { 8 ≤ length out.old }
    ensures { out.new ≡ front ((kind ∷ flags ∷ []) ++ (spell 2 size ++ spell 4 mask)) out.old }
{
    out[0] = kind;
    out[1] = flags;
    out[2..4].copy_from_slice(&size.to_le_bytes()[..2]);
    out[4..8].copy_from_slice(&mask.to_le_bytes());
}

// An entry in its parts.
#[derive(Clone, Copy)]
pub struct Parted<'a> {
    pub kind: u8,
    pub flags: u8,
    pub mask: u32,
    pub middle: &'a [u8],
    pub sid: &'a [u8],
    pub tail: &'a [u8],
}

// The entry that they make, on the front of what is left of the result.
pub(crate) fn put_entry(out: &mut [u8], p: &Parted) -> usize
    requires { 8 + (length p.now.middle.now + (length p.now.sid.now + length p.now.tail.now)) ≤ length out.old }
    ensures { (result ≡ 8 + (length p.now.middle.now + (length p.now.sid.now + length p.now.tail.now)))
        × (out.new ≡ front (entry_bytes (record { kind = p.now.kind; flags = p.now.flags; mask = p.now.mask; middle = p.now.middle.now; sid = p.now.sid.now; tail = p.now.tail.now })) out.old) }
{
    let sid_at = 8 + p.middle.len();
    let tail_at = sid_at + p.sid.len();
    let size = tail_at + p.tail.len();
    put_head(out, p.kind, p.flags, size, p.mask);
    octets::put(&mut out[8..], p.middle);
    octets::put(&mut out[sid_at..], p.sid);
    octets::put(&mut out[tail_at..], p.tail);
    size
}
