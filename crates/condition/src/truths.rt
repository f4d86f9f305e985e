// True, false or unknown.
ghost use Rattle.std.specs.Prelude.{◌≡◌};
ghost use Rattle.condition.specs.Meaning.{decided, and_of, or_of, not_of};

#[derive(Clone, Copy, Debug, PartialEq, Eq)]
pub enum Truth {
    False,
    True,
    Unknown,
}

// Of a test that holds or fails.
impl From<bool> for Truth {
    ghost from_gives = { λ yes truth. truth ≡ decided yes };

    fn from(yes: bool) -> Truth {
        if yes { Truth::True } else { Truth::False }
    }
}

impl Truth {
    #[tactic(auto, unfolding(crate::specs::Meaning::and_of))]
    pub(crate) fn and(self, other: Truth) -> Truth
        ensures { result ≡ and_of self other }
    {
        match (self, other) {
            (Truth::False, _) | (_, Truth::False) => Truth::False,
            (Truth::True, Truth::True) => Truth::True,
            _ => Truth::Unknown,
        }
    }

    #[tactic(auto, unfolding(crate::specs::Meaning::or_of))]
    pub(crate) fn or(self, other: Truth) -> Truth
        ensures { result ≡ or_of self other }
    {
        match (self, other) {
            (Truth::True, _) | (_, Truth::True) => Truth::True,
            (Truth::False, Truth::False) => Truth::False,
            _ => Truth::Unknown,
        }
    }

    #[tactic(auto, unfolding(crate::specs::Meaning::not_of))]
    pub(crate) fn not(self) -> Truth
        ensures { result ≡ not_of self }
    {
        match self {
            Truth::False => Truth::True,
            Truth::True => Truth::False,
            Truth::Unknown => Truth::Unknown,
        }
    }
}
