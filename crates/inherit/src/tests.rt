// The tests of what is handed in.
ghost use Rattle.std.specs.Prelude.{◌≡◌, ◌≤◌, ◌<◌, length};
ghost use Rattle.inherit.specs.Asked.{lent_list, types_ok, four_of};
ghost use Rattle.inherit.specs.Compute.{ordinary as Compute·ordinary};
ghost use Rattle.inherit.specs.Inner.Source.{Sources};

use crate::entries::Entries;
use refusal::Fault;

// The entries of a list that may be absent; a refusal concerns list `which`.
pub(crate) fn source_of<'a>(list: Option<&'a [u8]>, which: u8) -> Result<Option<Entries<'a>>, Fault>
    ensures { Sources (lent_list list.entry) which result }
{
    let Some(list) = list else {
        return Ok(None);
    };
    match list::check(list) {
        Ok(read) => Ok(Some(Entries {
            bytes: &list[8..],
            left: read.count,
        })),
        Err(fault) => Err(fault.in_list(which)),
    }
}

// An owner or a group: exactly one SID, and no placeholder.
pub(crate) fn ordinary(b: &[u8]) -> bool
    ensures { result ≡ Compute·ordinary b.now }
{
    list::identity(b) == Ok(None)
}

// Object types in their bytes: a multiple of 16, at most 64.
pub(crate) fn types_ok(b: &[u8]) -> bool
    ensures { result ≡ types_ok b.now }
{
    b.len() <= 64 && b.len() % 16 == 0
}

// The first four GUIDs; std's `as_chunks` gives a rest too, which would have to be shown empty, so it is no plainer.
pub(crate) fn four_of(b: &[u8]) -> [[u8; 16]; 4]
    ensures { result ≡ four_of b.now }
{
    let first = list::guid_at(b, 0);
    let second = list::guid_at(b, 16);
    let third = list::guid_at(b, 32);
    let fourth = list::guid_at(b, 48);
    [first, second, third, fourth]
}
