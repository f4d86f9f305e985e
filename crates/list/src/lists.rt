// Whole lists, and the index of their entries.
ghost use Rattle.std.specs.Prelude.{◌≡◌, ◌++◌, ◌+◌, ◌≤◌, ◌<◌, length, drop};
ghost use Rattle.list.specs.Entry.{access, size_of, entry_of};
ghost use Rattle.list.specs.List.{rev_ok, header_ok, offsets, walk_of, finish, check_of, read_of, row_by};
ghost use Rattle.list.specs.Answer.{reading_values, check_values, read_values};
ghost use Rattle.list.specs.Good.{Listed};
ghost use Rattle.list.specs.Inner.Begins.{sized};

use crate::entries::{entry_of, quick_size};
use crate::readings::Read;
use octets::half_in;
use refusal::{Fault, Refusal};

#[tactic(auto, unfolding(crate::specs::List::rev_ok))]
fn rev_ok(rev: u8) -> bool
    ensures { result ≡ rev_ok rev }
{
    matches!(rev, 2 | 4)
}

// Whether a list begins with a good header.
#[tactic(auto, unfolding(crate::specs::List::header_ok))]
fn header_ok(list: &[u8]) -> bool
    ensures { result ≡ header_ok list.now }
{
    list.len() >= 8
        && rev_ok(list[0])
        && list[1] == 0
        && half_in(list, 2) as usize == list.len()
        && half_in(list, 6) == 0
}

// The size of the entry at an offset of a list, or its fault, by the test. Apart, so that the loop stays as short as what it asks first.
#[inline(never)]
fn tested_size(list: &[u8], at: usize, rev: u8) -> Result<usize, Fault>
    requires { (at ≤ length list.now) × (length list.now < 65536) }
    ensures { result ≡ sized at (entry_of access rev (drop at list.now)) }
{
    match entry_of(&list[at..], rev) {
        Ok(entry) => Ok(entry.size),
        Err(why) => Err(Fault::at(why, at as u16)),
    }
}

// The same. Most entries are good and have no condition, which is asked first.
fn entry_size(list: &[u8], at: usize, rev: u8) -> Result<usize, Fault>
    requires { (at ≤ length list.now) × (length list.now < 65536) }
    ensures { result ≡ sized at (entry_of access rev (drop at list.now)) }
{
    match quick_size(&list[at..], rev) {
        Some(size) => Ok(size),
        None => tested_size(list, at, rev),
    }
}

// The entries of a list whose header is good.
fn walk(list: &[u8], rev: u8, count: u16) -> Result<Read, Fault>
    requires { (8 ≤ length list.now) × (length list.now < 65536) }
    ensures { result ≡ walk_of access rev count 8 (drop 8 list.now) (finish (length list.now) count) }
{
    let mut at: usize = 8;
    for _ in 0..count {
        at += entry_size(list, at, rev)?;
    }
    Ok(Read {
        length: list.len() as u16,
        count,
        end: at as u16,
    })
}

// A list, without its index.
pub fn check(list: &[u8]) -> Result<Read, Fault>
    ensures { reading_values result ≡ check_values list.now }
{
    if !header_ok(list) {
        return Err(Fault::from(Refusal::Header));
    }
    walk(list, list[0], half_in(list, 4))
}

// The size of the entry at an offset, of a list that has its four bytes. The index's loop asks for nothing else, and `half_in`, which tests whether they are there,
// would cost as much as the rest of it.
fn size_at(list: &[u8], at: usize) -> u16
    requires { at + 4 ≤ length list.now }
    ensures { result ≡ size_of (drop at list.now) }
{
    u16::from_le_bytes([list[at + 2], list[at + 3]])
}

// The offsets of the entries of a good list, on the front of the row.
fn fill(list: &[u8], count: u16, row: &mut [u16])
    requires { Listed access list.now count × (count ≤ length row.old) }
    ensures { row.new ≡ offsets count 8 (drop 8 list.now) ++ drop count row.old }
{
    let mut at: usize = 8;
    for slot in &mut row[..count as usize] {
        *slot = at as u16;
        at += size_at(list, at) as usize;
    }
}

// Reads a list and puts the offset of each entry on the front of the row; a refusal leaves the row as it was.
pub fn read(list: &[u8], row: &mut [u16]) -> Result<Read, Fault>
    ensures answer { reading_values result ≡ read_values list.now (length row.old) }
    ensures index { row.new ≡ row_by (read_of access list.now (length row.old)) list.now row.old }
{
    let read = check(list)?;
    if row.len() < read.count as usize {
        return Err(Fault::from(Refusal::Room));
    }
    fill(list, read.count, row);
    Ok(read)
}
