// Two lists side by side. A case: its kind (21), the lengths of both lists in 32 bits, the row's in 16, then the first list and the second.
use crate::area::{read_part, read_to};
use octets::{half_in, part_of, word_in};
use std::io::{Stdin, Stdout};
use stored::{end_line, print_answer, print_space, print_word};

const MOST_LIST: usize = 66000;

const MOST_ROW: usize = 300;

// Where the first list begins, and the second: behind the longest first one.
const FIRST: usize = 11;

const SECOND: usize = 66011;

// Element i of the row holds 4294967295 - i before a call.
fn prepare(row: &mut [u32]) {
    for (element, before) in row.iter_mut().zip((0..=u32::MAX).rev()) {
        *element = before;
    }
}

fn print_row(to: Stdout, row: &[u32]) {
    for x in row {
        print_space(to);
        print_word(to, *x);
    }
}

fn compare(to: Stdout, area: &[u8], row: &mut [u32]) {
    let mut answer = [0u32; 8];
    prepare(row);
    capi::pt_compare(
        part_of(area, FIRST, word_in(area, 1) as usize),
        part_of(area, SECOND, word_in(area, 5) as usize),
        row,
        &mut answer,
    );
    print_answer(to, 21, answer);
    print_row(to, row);
    end_line(to);
}

// Reads the rest of a case and runs it; none where a length is over its limit or the input ends.
pub(crate) fn run(from: Stdin, to: Stdout, area: &mut [u8]) -> Option<()> {
    read_to(from, area, 1, 10)?;
    read_part(from, area, FIRST, word_in(area, 1) as usize, MOST_LIST)?;
    read_part(from, area, SECOND, word_in(area, 5) as usize, MOST_LIST)?;
    let mut row = [0u32; MOST_ROW];
    compare(to, area, row.get_mut(..usize::from(half_in(area, 9)))?);
    Some(())
}
