// Who may open, and a walk. A case: its kind, a zero byte, a 16-bit zero, then 32-bit numbers. 16 may open: whether a list is given, the lengths of the
// list and of the held bytes, the wanted mask; then 16 type bytes, the list and the held bytes. 17 step: the list's length and the place; then the list.
// 18 evaluate: the lengths of the expression and of the table; then these. 19 may open with a table: as 16, with the table's length before the wanted
// mask and the table at the end.
use crate::area::{read_part, read_to};
use access::Found;
use list::guid_at;
use octets::{part_of, word_in};
use std::io::{Stdin, Stdout};
use stored::{end_line, print_space, print_values};

const MOST_LIST: usize = 66000;

const MOST_HELD: usize = 8000;

// Where the list of a question begins, and the held bytes: behind the longest list.
const LIST: usize = 36;

const HELD: usize = 66036;

// The same with a table, which lies behind the most held bytes.
const LIST_WITH: usize = 40;

const HELD_WITH: usize = 66040;

const TABLE_WITH: usize = 74040;

// Where the list of a step begins, or an expression; and its table, behind the longest one.
const WALKED: usize = 12;

const TABLE: usize = 66012;

const MOST_TABLE: usize = 8000;

fn run_open(to: Stdout, area: &[u8]) {
    let mut answer = [0u32; 8];
    let guid = guid_at(area, 20);
    capi::pt_may_open(
        word_in(area, 4),
        part_of(area, LIST, word_in(area, 8) as usize),
        &guid,
        part_of(area, HELD, word_in(area, 12) as usize),
        word_in(area, 16),
        &mut answer,
    );
    print_values(to, answer, 8);
    end_line(to);
}

fn run_open_with(to: Stdout, area: &[u8]) {
    let mut answer = [0u32; 8];
    let guid = guid_at(area, 24);
    capi::pt_may_open_with(
        word_in(area, 4),
        part_of(area, LIST_WITH, word_in(area, 8) as usize),
        &guid,
        part_of(area, HELD_WITH, word_in(area, 12) as usize),
        word_in(area, 20),
        part_of(area, TABLE_WITH, word_in(area, 16) as usize),
        &mut answer,
    );
    print_values(to, answer, 8);
    end_line(to);
}

fn run_evaluate(to: Stdout, area: &[u8]) {
    let mut answer = [0u32; 8];
    capi::pt_evaluate(
        part_of(area, WALKED, word_in(area, 4) as usize),
        part_of(area, TABLE, word_in(area, 8) as usize),
        &mut answer,
    );
    print_values(to, answer, 8);
    end_line(to);
}

fn open(from: Stdin, to: Stdout, area: &mut [u8]) -> Option<()> {
    read_to(from, area, 1, 35)?;
    read_part(from, area, LIST, word_in(area, 8) as usize, MOST_LIST)?;
    read_part(from, area, HELD, word_in(area, 12) as usize, MOST_HELD)?;
    run_open(to, area);
    Some(())
}

fn open_with(from: Stdin, to: Stdout, area: &mut [u8]) -> Option<()> {
    read_to(from, area, 1, 39)?;
    read_part(from, area, LIST_WITH, word_in(area, 8) as usize, MOST_LIST)?;
    read_part(from, area, HELD_WITH, word_in(area, 12) as usize, MOST_HELD)?;
    read_part(
        from,
        area,
        TABLE_WITH,
        word_in(area, 16) as usize,
        MOST_TABLE,
    )?;
    run_open_with(to, area);
    Some(())
}

fn evaluate(from: Stdin, to: Stdout, area: &mut [u8]) -> Option<()> {
    read_to(from, area, 1, 11)?;
    read_part(from, area, WALKED, word_in(area, 4) as usize, MOST_LIST)?;
    read_part(from, area, TABLE, word_in(area, 8) as usize, MOST_TABLE)?;
    run_evaluate(to, area);
    Some(())
}

// Whether the walker that is made of a list finds at first what the call told.
fn agrees(found: Option<Found>, answer: [u32; 8], entry: [u32; 8]) -> bool {
    match found {
        Some(found) => {
            found.at == answer[3] as usize
                && found.entry.size == entry[2] as usize
                && found.next == entry[7] as usize
        }
        None => answer[4] == 0,
    }
}

// Whether a walker goes past the entry that the call told of to where the call said that the next one begins.
fn goes_past(list: &[u8], answer: [u32; 8], entry: [u32; 8]) -> bool {
    answer[4] == 0 || access::next_at(access::walked(list), answer[3] as usize) == entry[7] as usize
}

// None where the walker and the call tell differently of the entry, or of the first one.
fn run_step(to: Stdout, list: &[u8], place: u32) -> Option<()> {
    let mut answer = [0u32; 8];
    let mut entry = [0u32; 8];
    capi::pt_step(list, place, &mut entry, &mut answer);
    print_values(to, answer, 8);
    print_space(to);
    print_values(to, entry, 8);
    end_line(to);
    let same = goes_past(list, answer, entry)
        && (8 < place || agrees(access::first(list), answer, entry));
    same.then_some(())
}

fn step(from: Stdin, to: Stdout, area: &mut [u8]) -> Option<()> {
    read_to(from, area, 1, 11)?;
    let n = word_in(area, 4) as usize;
    read_part(from, area, WALKED, n, MOST_LIST)?;
    run_step(to, part_of(area, WALKED, n), word_in(area, 8))
}

// Reads the rest of a case and runs it; none where a length is over its limit, the input ends, or two functions tell differently. Each kind has offsets
// and limits of its own, named above: one function for all, with a table of them, is no plainer.
pub(crate) fn run(from: Stdin, to: Stdout, kind: u8, area: &mut [u8]) -> Option<()> {
    match kind {
        16 => open(from, to, area),
        18 => evaluate(from, to, area),
        19 => open_with(from, to, area),
        _ => step(from, to, area),
    }
}
