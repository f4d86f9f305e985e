// Whole scripts. A case: its kind (15), the script's length in 32 bits, the length of `out` in 16, the script.
use crate::area::{out_length, read_sized, sized};
use crate::lent::run_lent;
use octets::part_of;
use std::io::{Stdin, Stdout};
use stored::print_text;

const MOST_SCRIPT: usize = 140000;

const MOST_OUT: usize = 1100;

// Reads the rest of a case and runs it, and prints the text that was written; none where a length is over its limit or the input ends.
pub(crate) fn run(from: Stdin, to: Stdout, area: &mut [u8]) -> Option<()> {
    read_sized(from, area, MOST_SCRIPT)?;
    run_lent::<MOST_OUT, _, _>(
        to,
        15,
        out_length(area),
        |out, answer| capi::pt_play(sized(area), out, answer),
        |answer, out| {
            if answer[0] == 0 {
                print_text(to, part_of(out, 0, answer[3] as usize));
            }
        },
    )
}
