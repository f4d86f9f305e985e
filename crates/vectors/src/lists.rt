// Reading. A case: its kind (1 read a list, 2 identity), a zero byte, the row's length in 16 bits, the payload's length in 32, the payload.
use crate::area::{read_part, read_to};
use list::{Placeholder, Sid};
use octets::{half_in, part_of, word_in};
use std::io::{Stdin, Stdout};
use stored::{end_line, print_bytes, print_size, print_space, print_values, print_word};

const MOST_PAYLOAD: usize = 66000;

const MOST_ROW: usize = 4200;

// Element i of the row holds 65535 - i before a call.
fn prepare(row: &mut [u16]) {
    for (element, before) in row.iter_mut().zip((0..=u16::MAX).rev()) {
        *element = before;
    }
}

fn print_row(to: Stdout, row: &[u16]) {
    for x in row {
        print_space(to);
        print_word(to, u32::from(*x));
    }
}

fn run_read(to: Stdout, list: &[u8], row: &mut [u16]) {
    let mut answer = [0u32; 8];
    prepare(row);
    capi::pt_read(list, row, &mut answer);
    print_values(to, answer, 8);
    print_row(to, row);
    end_line(to);
}

fn run_list(to: Stdout, list: &[u8], m: usize) -> Option<()> {
    let mut row = [0u16; MOST_ROW];
    run_read(to, list, row.get_mut(..m)?);
    Some(())
}

// What the call tells of an identity that was made, or of bytes that are none.
fn told_of(made: Option<Sid>) -> u32 {
    match made.map(Sid::placeholder) {
        None => 6,
        Some(None) => 0,
        Some(Some(Placeholder::Owner)) => 1,
        Some(Some(Placeholder::Group)) => 2,
    }
}

// None where two functions tell differently of an identity.
fn run_identity(to: Stdout, bytes: &[u8]) -> Option<()> {
    let number = capi::pt_identity(bytes);
    let made = Sid::from_bytes(bytes);
    print_word(to, number);
    print_space(to);
    match made {
        Some(sid) => {
            print_size(to, sid.len);
            print_space(to);
            print_bytes(to, &sid.bytes);
        }
        None => {
            print_size(to, 0);
            print_space(to);
            print_bytes(to, &[0; 68]);
        }
    }
    end_line(to);
    (number == told_of(made)).then_some(())
}

// Reads the rest of a case and runs it; none where a length is over its limit, the input ends, or two functions tell differently.
pub(crate) fn run(from: Stdin, to: Stdout, kind: u8, area: &mut [u8]) -> Option<()> {
    read_to(from, area, 1, 7)?;
    let m = usize::from(half_in(area, 2));
    let n = word_in(area, 4) as usize;
    read_part(from, area, 8, n, MOST_PAYLOAD)?;
    let payload = part_of(area, 8, n);
    match kind {
        2 => run_identity(to, payload),
        _ => run_list(to, payload, m),
    }
}
