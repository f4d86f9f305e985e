// Conditions typed as text. A case: its kind (20), the text's length in 32 bits, the length of `out` in 16, the text.
use crate::area::{out_length, read_sized, sized};
use crate::lent::run_lent;
use std::io::{Stdin, Stdout};

const MOST_TEXT: usize = 2000;

const MOST_OUT: usize = 4000;

// Reads the rest of a case and runs it; none where a length is over its limit or the input ends.
pub(crate) fn run(from: Stdin, to: Stdout, area: &mut [u8]) -> Option<()> {
    read_sized(from, area, MOST_TEXT)?;
    run_lent::<MOST_OUT, _, _>(
        to,
        20,
        out_length(area),
        |out, answer| capi::pt_condition(sized(area), out, answer),
        |_, _| {},
    )
}
