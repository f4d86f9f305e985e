// The stack in a small array, as nothing is allocated.
ghost use Rattle.std.specs.Prelude.{◌≡◌, ◌≤◌, ◌+◌, ◌-◌, [], ◌∷◌, drop, length};
ghost use Rattle.condition.specs.declared.cells.Cell.TheVariants.{Nothing};
ghost use Rattle.condition.specs.Inner.Cells.{live, top_of, only_in};

use crate::cells::{Cell, Effect};
use crate::truths::Truth;

// It grows downwards: `top` places are free; behind the lowest one stand two that hold nothing, so that the top one and the one below it can always be
// looked at.
#[derive(Clone, Copy)]
pub(crate) struct Stack {
    pub(crate) cells: [Cell; 18],
    pub(crate) top: usize,
    ghost room: { top ≤ 16 },
    ghost behind: { drop 16 cells ≡ Nothing ∷ Nothing ∷ [] },
}

impl Stack {
    pub(crate) fn new() -> Stack
        ensures { live result.cells result.top ≡ [] }
    {
        Stack {
            cells: [Cell::Nothing; 18],
            top: 16,
        }
    }

    // How many more places may be laid on.
    pub(crate) fn free(&self) -> usize
        ensures { result ≡ 16 - length (live self.now.cells self.now.top) }
    {
        self.top
    }

    // The top place, or the one below it.
    pub(crate) fn place(&self, k: usize) -> Cell
        requires { k ≤ 1 }
        ensures { result ≡ top_of k (live self.now.cells self.now.top) }
    {
        self.cells[self.top + k]
    }

    // What a token does to it.
    pub(crate) fn apply(&mut self, effect: Effect)
        requires there { effect.pops ≤ length (live self.old.cells self.old.top) }
        requires fits { length (live self.old.cells self.old.top) + 1 ≤ 16 + effect.pops }
        ensures { live self.new.cells self.new.top ≡ effect.cell ∷ drop effect.pops (live self.old.cells self.old.top) }
    {
        self.top = self.top + effect.pops - 1;
        self.cells[self.top] = effect.cell;
    }

    // What the one condition says that is left.
    pub(crate) fn only(&self) -> Option<Truth>
        ensures { result ≡ only_in (live self.now.cells self.now.top) }
    {
        if self.top != 15 {
            return None;
        }
        self.cells[15].truth()
    }
}
