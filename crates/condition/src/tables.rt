// The table of names where it lies.
ghost use Rattle.std.specs.Prelude.{◌≡◌, ◌≤◌, length, IfSome};
ghost use Rattle.octets.specs.Bytes.{le, same_bytes};
ghost use Rattle.octets.specs.Absent.{unless_zero};
ghost use Rattle.condition.specs.Table.{record_long, attributes_of, value_in, well_made};
ghost use Rattle.condition.specs.Inner.Cells.{key_of, found_by};

use crate::tokens::name_ok;
use octets::{half_in, same_bytes, word_in};

const MOST_NAMES: u32 = 32;

// The key of the 64-bit number at the front; bytes that are not there count as 0.
pub(crate) fn key_in(s: &[u8]) -> u64
    ensures { result ≡ key_of (le 8 s.now) }
{
    u64::from(word_in(s, 0)) + 0x100000000 * u64::from(word_in(s, 4).wrapping_add(0x80000000))
}

// How many bytes the record has that lies at the front; none where it is cut or its length is wrong.
// One function with `name_long` would take the width, the offset and what is added, and be no plainer.
#[tactic(auto, unfolding(octets::specs::Absent::unless_zero, crate::specs::Table::record_long, crate::specs::Token::name_ok))]
fn record_long(t: &[u8]) -> Option<usize>
    ensures long { result ≡ unless_zero (record_long t.now) }
    ensures inside { IfSome result (λ n. (12 ≤ n) × (n ≤ length t.now)) }
{
    let n = half_in(t, 0) as usize;
    if !name_ok(n) || t.len() < 10 + n {
        return None;
    }
    Some(10 + n)
}

// Whether a name is that one. The low byte of its last unit is looked at first: there names of one sort, as area1 and area2, differ.
fn is_called(named: &[u8], name: &[u8]) -> bool
    requires { 2 ≤ length named.now }
    ensures { result ≡ same_bytes named.now name.now }
{
    named.len() == name.len()
        && named[named.len() - 2] == name[named.len() - 2]
        && same_bytes(named, name)
}

// The key of a name's number.
pub(crate) fn find(table: &[u8], name: &[u8]) -> Option<u64>
    ensures { result ≡ found_by (value_in (attributes_of table.now) name.now) }
{
    let mut rest = table;
    while let Some(long) = record_long(rest) {
        if is_called(&rest[2..long - 8], name) {
            return Some(key_in(&rest[long - 8..]));
        }
        rest = &rest[long..];
    }
    None
}

// Whether the bytes are records to their end, at most 32, each name once.
pub(crate) fn well_made(table: &[u8]) -> bool
    ensures { result ≡ well_made 32 table.now }
{
    let mut rest = table;
    for _ in 0..MOST_NAMES {
        let Some(long) = record_long(rest) else {
            break;
        };
        let later = &rest[long..];
        if find(later, &rest[2..long - 8]).is_some() {
            return false;
        }
        rest = later;
    }
    rest.is_empty()
}
