// What joins operands and conditions, by the codes of their tokens.
ghost use Rattle.std.specs.Prelude.{◌≡◌, [], ◌∷◌};
ghost use Rattle.wording.specs.Stored.{token_bytes};
ghost use Rattle.wording.specs.Inner.Tokens.{token_of};
ghost use Rattle.wording.specs.Inner.Walk.{takes};

#[derive(Clone, Copy)]
pub enum Operator {
    Equal = 0x80,
    Unequal = 0x81,
    Below = 0x82,
    AtMost = 0x83,
    Above = 0x84,
    AtLeast = 0x85,
    And = 0xA0,
    Or = 0xA1,
    Not = 0xA2,
}

impl Operator {
    // Its byte in the stored form; a method, as `takes` is, since `u8::from` would say less of what the byte is.
    #[tactic(auto, unfolding(crate::specs::Stored::token_bytes, crate::specs::Stored::code_of))]
    pub(crate) fn code(self) -> u8
        ensures { result ∷ [] ≡ token_bytes (token_of self) }
    {
        self as u8
    }

    // How many values it takes from the stack.
    #[tactic(auto, unfolding(crate::specs::Inner::Walk::takes))]
    pub(crate) fn takes(self) -> usize
        ensures { result ≡ takes (token_of self) }
    {
        match self {
            Operator::Not => 1,
            _ => 2,
        }
    }
}
