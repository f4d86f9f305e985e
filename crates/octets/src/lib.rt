// Bytes: little-endian numbers, parts, equality, and bytes put on the front of a buffer.
#![tactic(auto)]

mod numbers;

pub use numbers::{byte_in, half_in, part_of, put, same_bytes, word_in};
