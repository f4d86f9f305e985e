// Runs the stored cases of standard input through the C library's calls and writes what each answers, a line for each.
// A case is a byte that says its kind, and what each layer's file says: 1 and 2 lists, 3 computing, 4 to 14 trees, 15 scripts, 16 to 19
// who may open, a walk and expressions, 20 conditions typed as text, 21 two lists side by side.
// All numbers have their lowest byte first. The byte 0 ends the input; for one that holds no case, `bad` is written.
#![tactic(auto)]

mod area;
mod computing;
mod lent;
mod lists;
mod openings;
mod pairs;
mod scripts;
mod texts;
mod trees;

use area::read_to;
use octets::byte_in;
use std::io::{Stdin, Stdout};
use stored::bad;

// The longest case is that of the computation with all its parts.
const MOST_CASE: usize = 198656;

const MOST_ROOM: usize = 220000;

// Runs a case whose kind is read, a byte of the input; none where there is no such case.
fn run(
    from: Stdin,
    to: Stdout,
    kind: u8,
    area: &mut [u8],
    room: &mut [u8],
    lent: &mut usize,
) -> Option<()> {
    match kind {
        1 | 2 => lists::run(from, to, kind, area),
        3 => computing::run(from, to, area),
        15 => scripts::run(from, to, area),
        16..=19 => openings::run(from, to, kind, area),
        20 => texts::run(from, to, area),
        21 => pairs::run(from, to, area),
        _ => trees::run(from, to, kind, area, room, lent),
    }
}

// Runs the next case and tells its kind, which is the byte 0 at the end; none where the input holds no case.
fn run_next(
    from: Stdin,
    to: Stdout,
    area: &mut [u8],
    room: &mut [u8],
    lent: &mut usize,
) -> Option<u8> {
    read_to(from, area, 0, 1)?;
    let kind = byte_in(area, 0);
    if kind != 0 {
        run(from, to, kind, area, room, lent)?;
    }
    Some(kind)
}

fn main(rt: HostRuntime) {
    let from = rt.stdin();
    let to = rt.stdout();
    let mut area = [0u8; MOST_CASE];
    let mut room = [0u8; MOST_ROOM];
    let mut lent = 0usize;
    for _ in 0..u32::MAX {
        match run_next(from, to, &mut area, &mut room, &mut lent) {
            Some(0) => return,
            Some(_) => {}
            None => return bad(to),
        }
    }
}
