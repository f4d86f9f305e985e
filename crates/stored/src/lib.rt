// What the program of stored cases reads and prints with: bytes in, numbers and hashes out. What standard output doesn't take is lost: the
// line that should hold it then differs from the stored one.
#![tactic(auto)]

use std::io::{Print, Read, Stdin, Stdout};

// What a byte of `out` holds before a call.
const BEFORE: u8 = 0xAA;

const HASH_START: u32 = 0x811C9DC5;

const HASH_PRIME: u64 = 16777619;

const HASH_BASE: u64 = 4294967296;

// Fills the bytes from standard input; none where it ends before.
pub fn read(mut from: Stdin, bytes: &mut [u8]) -> Option<()> {
    from.read_exact(bytes).ok()
}

// Fills what is lent to a call.
pub fn prepare(out: &mut [u8]) {
    out.fill(BEFORE);
}

// The product's lowest 32 bits.
fn times_prime(x: u32) -> u32 {
    (u64::from(x) * HASH_PRIME % HASH_BASE) as u32
}

// FNV-1a in 32 bits.
fn hash(bytes: &[u8]) -> u32 {
    let mut h = HASH_START;
    for x in bytes {
        h = times_prime(h ^ u32::from(*x));
    }
    h
}

pub fn print_word(to: Stdout, x: u32) {
    let _ = print!(to; "{x}");
}

pub fn print_size(to: Stdout, x: usize) {
    let _ = print!(to; "{x}");
}

pub fn print_space(to: Stdout) {
    print_text(to, b" ");
}

pub fn end_line(to: Stdout) {
    print_text(to, b"\n");
}

pub fn print_text(to: Stdout, text: &[u8]) {
    let _ = to.write_all(text);
}

pub fn print_hash(to: Stdout, bytes: &[u8]) {
    let h = hash(bytes);
    let _ = print!(to; "{h:08x}");
}

// Two digits for each byte.
pub fn print_bytes(to: Stdout, bytes: &[u8]) {
    for x in bytes {
        let _ = print!(to; "{x:02x}");
    }
}

// The answer's first n values, with a space between them; nothing where n is over 8.
pub fn print_values(to: Stdout, answer: [u32; 8], n: usize) {
    let Some(values) = answer.get(..n) else {
        return;
    };
    for (i, value) in values.iter().enumerate() {
        if 0 < i {
            print_space(to);
        }
        print_word(to, *value);
    }
}

// The call's byte and the eight values, with a space between them.
pub fn print_answer(to: Stdout, call: u8, answer: [u32; 8]) {
    print_word(to, u32::from(call));
    print_space(to);
    print_values(to, answer, 8);
}

// The input holds no case.
pub fn bad(to: Stdout) {
    print_text(to, b"bad\n");
}
