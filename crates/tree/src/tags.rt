// The kinds of a kept step.
ghost use Rattle.std.specs.Prelude.{◌≡◌};
ghost use Rattle.tree.specs.Inner.Tags.{tag_byte};

// That of an add, and of any other change.
#[derive(Clone, Copy, Debug, PartialEq, Eq)]
pub(crate) enum Tag {
    Add,
    Alter,
}

impl Tag {
    // Its byte in a room (docs/ROOM.md).
    pub(crate) fn byte(self) -> u8
        ensures { result ≡ tag_byte self }
    {
        match self {
            Tag::Add => 1,
            Tag::Alter => 2,
        }
    }
}
