// What the walk counts.
ghost use Rattle.std.specs.Prelude.{◌≡◌};
ghost use Rattle.wording.specs.Inner.Walk.{note_b};

// Tokens and bytes so far, how many values stand on the stack, and the most that have.
#[derive(Clone, Copy)]
pub struct Tally {
    pub tokens: usize,
    pub size: usize,
    pub height: usize,
    pub highest: usize,
}

impl Tally {
    // One token more, of k bytes, that takes `down` from the stack and lays one value there. Counts stop far above every limit.
    #[tactic(auto, unfolding(crate::specs::Inner::Walk::note_b, crate::specs::Inner::Walk::up_by))]
    pub(crate) fn note(self, k: usize, down: usize) -> Tally
        ensures { result ≡ note_b k down self }
    {
        let height = self.height.saturating_sub(down).saturating_add(1);
        Tally {
            tokens: self.tokens.saturating_add(1),
            size: self.size.saturating_add(k),
            height,
            highest: self.highest.max(height),
        }
    }
}
