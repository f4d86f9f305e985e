// The area that a case is read into, from its first byte on.
use octets::{half_in, part_of, word_in};
use std::io::Stdin;
use stored::read;

// Reads n bytes to a place of the area; none where it ends before them or the input does.
pub(crate) fn read_to(from: Stdin, area: &mut [u8], at: usize, n: usize) -> Option<()> {
    read(from, area.get_mut(at..)?.get_mut(..n)?)
}

// The same where n is at most so many.
pub(crate) fn read_part(
    from: Stdin,
    area: &mut [u8],
    at: usize,
    n: usize,
    most: usize,
) -> Option<()> {
    if most < n {
        return None;
    }
    read_to(from, area, at, n)
}

// Of a script or a text: its length in 32 bits behind the kind, the length of `out` in 16, then its bytes. Reads it; none where it is longer than
// `most` or the input ends.
pub(crate) fn read_sized(from: Stdin, area: &mut [u8], most: usize) -> Option<()> {
    read_to(from, area, 1, 6)?;
    read_part(from, area, 7, word_in(area, 1) as usize, most)
}

pub(crate) fn sized(area: &[u8]) -> &[u8] {
    part_of(area, 7, word_in(area, 1) as usize)
}

pub(crate) fn out_length(area: &[u8]) -> usize {
    usize::from(half_in(area, 5))
}
