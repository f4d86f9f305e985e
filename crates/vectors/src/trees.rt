// Calls on a tree, which lies in a room that stays from call to call. A case: its kind; its numbers, of 32 bits but for the length of `out`,
// which has 16; its strings, each as its length in 16 bits and its bytes. 4 start: room length, objects, steps, rule, mapping (4), whether a
// default is given; default. 5 add: parent, traits, the 16 bytes of a type; owner, group, list. 6 set list: object, whether one is given;
// list. 7 set mark: object, mark. 8 set owner: object; owner, group. 9 undo. 10 list, 11 own, 12 data: object, length of `out`.
// 13 counts. 14 room: objects, steps.
use crate::area::{read_part, read_to};
use crate::lent::run_lent;
use list::guid_at;
use octets::{half_in, part_of, word_in};
use std::io::{Stdin, Stdout};
use stored::{end_line, print_answer, print_size, print_space, print_word};

const MOST_OUT: usize = 1100;

const MOST_LIST: usize = 4096;

const MOST_NAME: usize = 200;

// Where each string lies in the area, and its length before them.
const OWNER_LENGTH: usize = 40;

const GROUP_LENGTH: usize = 42;

const LIST_LENGTH: usize = 44;

const OWNER: usize = 46;

const GROUP: usize = 246;

const LIST: usize = 446;

// How many bytes a call's numbers have. A call is a byte of the input, here and below; each arm is a call of its own, so closures would be no plainer.
fn head_size(call: u8) -> usize {
    match call {
        4 => 36,
        5 => 24,
        6 | 7 | 14 => 8,
        8 => 4,
        10..=12 => 6,
        _ => 0,
    }
}

// Reads a string after its length; none where it's over its limit or the input ends.
fn read_string(
    from: Stdin,
    area: &mut [u8],
    length_at: usize,
    at: usize,
    most: usize,
) -> Option<()> {
    read_to(from, area, length_at, 2)?;
    read_part(from, area, at, usize::from(half_in(area, length_at)), most)
}

// The strings of a call: owner and group where it has them, then a list.
fn read_strings(from: Stdin, call: u8, area: &mut [u8]) -> Option<()> {
    if matches!(call, 5 | 8) {
        read_string(from, area, OWNER_LENGTH, OWNER, MOST_NAME)?;
        read_string(from, area, GROUP_LENGTH, GROUP, MOST_NAME)?;
    }
    if matches!(call, 4..=6) {
        read_string(from, area, LIST_LENGTH, LIST, MOST_LIST)?;
    }
    Some(())
}

// The string that `read_string` read.
fn string(area: &[u8], length_at: usize, at: usize) -> &[u8] {
    part_of(area, at, usize::from(half_in(area, length_at)))
}

fn owner(area: &[u8]) -> &[u8] {
    string(area, OWNER_LENGTH, OWNER)
}

fn group(area: &[u8]) -> &[u8] {
    string(area, GROUP_LENGTH, GROUP)
}

fn list_of(area: &[u8]) -> &[u8] {
    string(area, LIST_LENGTH, LIST)
}

fn start(area: &[u8], room: &mut [u8], answer: &mut [u32; 8]) {
    let mapping = [
        word_in(area, 17),
        word_in(area, 21),
        word_in(area, 25),
        word_in(area, 29),
    ];
    capi::pt_start(
        room,
        word_in(area, 5),
        word_in(area, 9),
        word_in(area, 13),
        &mapping,
        word_in(area, 33),
        list_of(area),
        answer,
    );
}

// None where the room's length is over its limit. The calls after a start are lent its room where it was done.
fn run_start(to: Stdout, area: &[u8], room: &mut [u8], lent: &mut usize) -> Option<()> {
    let n = word_in(area, 1) as usize;
    let mut answer = [0u32; 8];
    start(area, room.get_mut(..n)?, &mut answer);
    if answer[0] == 0 {
        *lent = n;
    }
    print_answer(to, 4, answer);
    end_line(to);
    Some(())
}

fn add(area: &[u8], room: &mut [u8], answer: &mut [u32; 8]) {
    let kind = guid_at(area, 9);
    capi::pt_add(
        room,
        word_in(area, 1),
        word_in(area, 5),
        &kind,
        owner(area),
        group(area),
        list_of(area),
        answer,
    );
}

fn set_list(area: &[u8], room: &mut [u8], answer: &mut [u32; 8]) {
    capi::pt_set_list(
        room,
        word_in(area, 1),
        word_in(area, 5),
        list_of(area),
        answer,
    );
}

fn set_mark(area: &[u8], room: &mut [u8], answer: &mut [u32; 8]) {
    capi::pt_set_mark(room, word_in(area, 1), word_in(area, 5), answer);
}

fn set_owner(area: &[u8], room: &mut [u8], answer: &mut [u32; 8]) {
    capi::pt_set_owner(room, word_in(area, 1), owner(area), group(area), answer);
}

// The changes, undo and counts.
fn change(call: u8, area: &[u8], room: &mut [u8], answer: &mut [u32; 8]) {
    match call {
        5 => add(area, room, answer),
        6 => set_list(area, room, answer),
        7 => set_mark(area, room, answer),
        8 => set_owner(area, room, answer),
        9 => capi::pt_undo(room, answer),
        _ => capi::pt_counts(room, answer),
    }
}

fn run_change(to: Stdout, call: u8, area: &[u8], room: &mut [u8]) {
    let mut answer = [0u32; 8];
    change(call, area, room, &mut answer);
    print_answer(to, call, answer);
    end_line(to);
}

fn read_back(call: u8, object: u32, room: &[u8], out: &mut [u8], answer: &mut [u32; 8]) {
    match call {
        10 => capi::pt_list(room, object, out, answer),
        11 => capi::pt_own(room, object, out, answer),
        _ => capi::pt_data(room, object, out, answer),
    }
}

// None where the length of `out` is over its limit.
fn run_read(to: Stdout, call: u8, area: &[u8], room: &[u8]) -> Option<()> {
    run_lent::<MOST_OUT, _, _>(
        to,
        call,
        usize::from(half_in(area, 5)),
        |out, answer| read_back(call, word_in(area, 1), room, out, answer),
        |_, _| {},
    )
}

fn run_room(to: Stdout, area: &[u8]) {
    print_word(to, 14);
    print_space(to);
    print_size(to, capi::pt_room(word_in(area, 1), word_in(area, 5)));
    end_line(to);
}

// A call other than start, on the room that it's lent; none where there is no such call.
fn run_other(to: Stdout, call: u8, area: &[u8], room: &mut [u8]) -> Option<()> {
    match call {
        5..=9 | 13 => run_change(to, call, area, room),
        10..=12 => run_read(to, call, area, room)?,
        14 => run_room(to, area),
        _ => return None,
    }
    Some(())
}

// Reads the rest of a call and runs it; none where it's no call, a length is over its limit or the input ends.
pub(crate) fn run(
    from: Stdin,
    to: Stdout,
    call: u8,
    area: &mut [u8],
    room: &mut [u8],
    lent: &mut usize,
) -> Option<()> {
    read_to(from, area, 1, head_size(call))?;
    read_strings(from, call, area)?;
    if call == 4 {
        return run_start(to, area, room, lent);
    }
    run_other(to, call, area, room.get_mut(..*lent)?)
}
