// Why a call refuses, and which list and which of its entries that concerns.
#![tactic(auto)]

ghost use Rattle.std.specs.Prelude.{◌≡◌};
ghost use Rattle.refusal.specs.Numbers.{number_of};
ghost use Rattle.refusal.specs.Faults.{plain, fault_at, in_list};

// The reasons, by the names that the C library's header gives them (`Kind` is PT_TYPE there).
#[derive(Clone, Copy, Debug, PartialEq, Eq)]
pub enum Refusal {
    Header,
    Size,
    Kind,
    Bits,
    Sid,
    Identity,
    Types,
    Room,
    Object,
    Full,
    NoStep,
    Rule,
    Tree,
    Generic,
    Expression,
    Text,
    Large,
    Many,
    Table,
}

impl Refusal {
    // Its number, as document 01 calls it (RULES 4.1).
    pub fn number(self) -> u8
        ensures { result ≡ number_of self }
    {
        match self {
            Refusal::Header => 1,
            Refusal::Size => 2,
            Refusal::Kind => 3,
            Refusal::Bits => 4,
            Refusal::Sid => 5,
            Refusal::Identity => 6,
            Refusal::Types => 7,
            Refusal::Room => 8,
            Refusal::Object => 9,
            Refusal::Full => 10,
            Refusal::NoStep => 11,
            Refusal::Rule => 12,
            Refusal::Tree => 13,
            Refusal::Generic => 14,
            Refusal::Expression => 15,
            Refusal::Text => 16,
            Refusal::Large => 17,
            Refusal::Many => 22,
            Refusal::Table => 23,
        }
    }
}

// A refusal with the list that it concerns, 0 where that is none, and the offset of the entry, 0 where there is none: the numbers of document 01's values
// (RULES 4.2; `reading_values` and its like), which C is told.
#[derive(Clone, Copy, Debug, PartialEq, Eq)]
pub struct Fault {
    pub why: Refusal,
    pub list: u8,
    pub at: u16,
}

// It concerns no list.
impl From<Refusal> for Fault {
    ghost from_gives = { λ why fault. fault ≡ plain why };

    fn from(why: Refusal) -> Fault {
        Fault {
            why,
            list: 0,
            at: 0,
        }
    }
}

impl Fault {
    // Of the entry at an offset, of a list that the caller knows.
    pub fn at(why: Refusal, at: u16) -> Fault
        ensures { result ≡ fault_at why at }
    {
        Fault { why, list: 0, at }
    }

    // The same, of that list.
    pub fn in_list(self, list: u8) -> Fault
        ensures { result ≡ in_list list self }
    {
        Fault {
            why: self.why,
            list,
            at: self.at,
        }
    }
}
