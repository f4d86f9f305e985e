// A list's entries, one after another.
ghost use Rattle.std.specs.Prelude.{◌≡◌, ◌≤◌};
ghost use Rattle.list.specs.Entry.{access, kind_of, flags_of, size_of};
ghost use Rattle.list.specs.Look.{look_of};
ghost use Rattle.list.specs.Good.{Whole, Passes};
ghost use Rattle.inherit.specs.Inner.Passing.{passes-prop};

use list::Look;

// An entry, as its bytes.
#[derive(Clone, Copy)]
pub struct Entry<'a> {
    pub bytes: &'a [u8],
    ghost whole: { Whole access 4 bytes.now },
    ghost small: { size_of bytes.now ≤ 65535 },
}

impl<'a> Entry<'a> {
    pub(crate) fn kind(&self) -> u8
        ensures { result ≡ kind_of self.now.bytes.now }
    {
        self.bytes[0]
    }

    pub(crate) fn flags(&self) -> u8
        ensures { result ≡ flags_of self.now.bytes.now }
    {
        self.bytes[1]
    }

    // All fields, where it is copied or an object type is asked for; what only goes over an entry needs two of them.
    #[inline(always)]
    pub(crate) fn look(&self) -> Look
        ensures { result ≡ look_of self.now.bytes.now }
    {
        list::look_at(self.bytes)
    }
}

// Those entries of a list that are still to come: how many there are, and the bytes from the next one on.
#[derive(Clone, Copy)]
pub struct Entries<'a> {
    pub bytes: &'a [u8],
    pub left: u16,
    ghost passes: { Passes access 4 left bytes.now } by { passes-prop 4 left bytes.now },
}

impl<'a> Iterator for Entries<'a> {
    ghost use Rattle.std.specs.Iterator.{YieldsFirstBy, item_count};
    ghost use Rattle.inherit.specs.Inner.Still.{still, own_bytes};

    type Item = Entry<'a>;

    ghost next_gives = { YieldsFirstBy own_bytes still };

    ghost remaining = { item_count still };

    fn next(&mut self) -> Option<Entry<'a>> {
        if self.left == 0 {
            return None;
        }
        let size = octets::half_in(self.bytes, 2);
        let (bytes, rest) = self.bytes.split_at(usize::from(size));
        self.bytes = rest;
        self.left -= 1;
        Some(Entry { bytes })
    }
}
