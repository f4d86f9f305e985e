// The text of a walk, where the walk has come, and where the text goes wrong.
ghost use Rattle.std.specs.Prelude.{◌≤◌, length};

use crate::tallies::Tally;

// A text that is short enough to be walked over.
#[derive(Clone, Copy)]
pub(crate) struct Text<'a> {
    pub(crate) bytes: &'a [u8],
    ghost short: { length bytes.now ≤ 512 },
}

// The place that a walk has come to, with what it has counted.
#[derive(Clone, Copy)]
pub struct Place {
    pub at: usize,
    pub tally: Tally,
}

// The first place after which no continuation of the text is left.
#[derive(Clone, Copy)]
pub struct Wrong {
    pub at: usize,
}
