// The operators by their codes.
ghost use Rattle.std.specs.Prelude.{◌≡◌};
ghost use Rattle.condition.specs.Token.{operator_of};
ghost use Rattle.condition.specs.Inner.Cells.{compare_keys, comparison_meant, operator_meant};

#[derive(Clone, Copy)]
pub(crate) enum Comparison {
    Equal,
    Unequal,
    Below,
    AtMost,
    Above,
    AtLeast,
}

#[derive(Clone, Copy)]
pub(crate) enum Operator {
    Compares(Comparison),
    Exists,
    And,
    Or,
    Not,
}

impl Comparison {
    // Whether keys compare so.
    #[tactic(auto, unfolding(crate::specs::Inner::Cells::compare_keys))]
    pub(crate) fn holds(self, x: u64, y: u64) -> bool
        ensures { result ≡ compare_keys (comparison_meant self) x y }
    {
        match self {
            Comparison::Equal => x == y,
            Comparison::Unequal => x != y,
            Comparison::Below => x < y,
            Comparison::AtMost => x <= y,
            Comparison::Above => x > y,
            Comparison::AtLeast => x >= y,
        }
    }
}

impl Operator {
    // One byte each; any other code is none, of which there is no more to say than `None`: a TryFrom is no plainer.
    #[tactic(auto, unfolding(crate::specs::Token::operator_of, crate::specs::Token::comparison_of))]
    pub(crate) fn from_code(code: u8) -> Option<Operator>
        ensures { operator_meant result ≡ operator_of code }
    {
        match code {
            0x80 => Some(Operator::Compares(Comparison::Equal)),
            0x81 => Some(Operator::Compares(Comparison::Unequal)),
            0x82 => Some(Operator::Compares(Comparison::Below)),
            0x83 => Some(Operator::Compares(Comparison::AtMost)),
            0x84 => Some(Operator::Compares(Comparison::Above)),
            0x85 => Some(Operator::Compares(Comparison::AtLeast)),
            0x87 => Some(Operator::Exists),
            0xA0 => Some(Operator::And),
            0xA1 => Some(Operator::Or),
            0xA2 => Some(Operator::Not),
            _ => None,
        }
    }
}
