// Where a run stands between two reads.
ghost use Rattle.std.specs.Prelude.{◌≤◌, ◌<◌, ◌≡◌};
ghost use Rattle.axs.specs.Reads.{end_at};
ghost use Rattle.axs.specs.Inner.Bounds.{bound_at};

use crate::End;

// More than the longest record, of 66,069 bytes: whatever is left of a piece, there is room for more.
pub const BUFFER: usize = 66112;

// So many bytes are held, of which the first stands at this offset. Before the head is whole the offset is 0.
#[derive(Clone, Copy, Debug, PartialEq, Eq)]
pub struct Place {
    pub at: u64,
    pub held: usize,
    ghost room_for_more: { held < bound_at at },
    ghost in_range: { at ≤ 9223372036854775808 },
}

impl Place {
    // Where what is read next ends at most: the head is read by itself.
    #[tactic(auto, unfolding(crate::specs::Inner::Bounds::bound_at))]
    pub fn bound(self) -> usize
        ensures { result ≡ bound_at self.at }
    {
        if self.at == 0 { 5 } else { BUFFER }
    }

    // The input ends here, and what is held is no whole record.
    #[tactic(auto, unfolding(crate::specs::Reads::end_at))]
    pub fn end(self) -> End
        ensures { result ≡ end_at self.at self.held }
    {
        if self.at == 0 {
            End::Bad { at: self.at }
        } else if self.held == 0 {
            End::Whole
        } else {
            End::Bad { at: self.at }
        }
    }
}
