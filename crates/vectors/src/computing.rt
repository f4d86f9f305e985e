// The computation. A case: its kind (3), a zero byte, a 16-bit zero; then 32-bit numbers: the rule, the settings, the four masks of the
// mapping, the lengths of parent, creator, default, types, owner and group, and the room; then the bytes of those six.
use crate::area::{read_part, read_to};
use octets::{part_of, word_in};
use std::io::{Stdin, Stdout};
use stored::{end_line, print_bytes, print_space, print_values, print_word};

const MOST_LIST: usize = 66000;

const MOST_PART: usize = 200;

// Where each part lies in the area: behind the longest one before it.
const PARENT: usize = 56;

const CREATOR: usize = 66056;

const DEFAULT: usize = 132056;

const TYPES: usize = 198056;

const OWNER: usize = 198256;

const GROUP: usize = 198456;

// A larger result is printed as a sum.
const MOST_PRINTED: usize = 1024;

const SUM_BASE: u32 = 65521;

// Byte i of the result holds (37 i + 11) mod 256 before a call.
fn prepare(out: &mut [u8]) {
    let mut before = 11u8;
    for byte in out {
        *byte = before;
        before = before.wrapping_add(37);
    }
}

// Two running sums, so that the order of the bytes counts too.
fn print_sum(to: Stdout, bytes: &[u8]) {
    let mut a = 1u32;
    let mut b = 0u32;
    for x in bytes {
        a = (a + u32::from(*x)) % SUM_BASE;
        b = (b + a) % SUM_BASE;
    }
    print_word(to, a);
    print_space(to);
    print_word(to, b);
}

fn print_result(to: Stdout, out: &[u8]) {
    if out.len() <= MOST_PRINTED {
        print_bytes(to, out);
        return;
    }
    print_sum(to, out);
}

// Reads the part whose length is at that offset; none where it's over its limit or the input ends.
fn fill(from: Stdin, area: &mut [u8], at: usize, place: usize, most: usize) -> Option<()> {
    read_part(from, area, place, word_in(area, at) as usize, most)
}

fn fill_parts(from: Stdin, area: &mut [u8]) -> Option<()> {
    fill(from, area, 28, PARENT, MOST_LIST)?;
    fill(from, area, 32, CREATOR, MOST_LIST)?;
    fill(from, area, 36, DEFAULT, MOST_LIST)?;
    fill(from, area, 40, TYPES, MOST_PART)?;
    fill(from, area, 44, OWNER, MOST_PART)?;
    fill(from, area, 48, GROUP, MOST_PART)
}

// The part that `fill` read.
fn part(area: &[u8], at: usize, place: usize) -> &[u8] {
    part_of(area, place, word_in(area, at) as usize)
}

fn compute(area: &[u8], out: &mut [u8], answer: &mut [u32; 8]) {
    let mapping = [
        word_in(area, 12),
        word_in(area, 16),
        word_in(area, 20),
        word_in(area, 24),
    ];
    capi::pt_compute(
        word_in(area, 4),
        word_in(area, 8),
        &mapping,
        part(area, 28, PARENT),
        part(area, 32, CREATOR),
        part(area, 36, DEFAULT),
        part(area, 40, TYPES),
        part(area, 44, OWNER),
        part(area, 48, GROUP),
        out,
        answer,
    );
}

fn run_compute(to: Stdout, area: &[u8], out: &mut [u8]) {
    let mut answer = [0u32; 8];
    prepare(out);
    compute(area, out, &mut answer);
    print_values(to, answer, 7);
    print_space(to);
    print_result(to, out);
    end_line(to);
}

// Reads the rest of a case and runs it; none where a length is over its limit or the input ends.
pub(crate) fn run(from: Stdin, to: Stdout, area: &mut [u8]) -> Option<()> {
    read_to(from, area, 1, 55)?;
    fill_parts(from, area)?;
    let mut out = [0u8; MOST_LIST];
    run_compute(to, area, out.get_mut(..word_in(area, 52) as usize)?);
    Some(())
}
