// Which branch of the table is taken (RULES 2.10).
ghost use Rattle.std.specs.Prelude.{◌≡◌};
ghost use Rattle.inherit.specs.Copies.{any_heritable};
ghost use Rattle.inherit.specs.Inner.Still.{still};
ghost use Rattle.inherit.specs.Inner.Rules.{number_by};
ghost use Rattle.inherit.specs.Inner.Plan.{merged_of, plan_of};

use crate::Settings;
use crate::copies::has;
use crate::entries::Entries;
use crate::rules::Rule;

// Which lists give entries: the creator's own ones, the parent's, the default list's; and the control bits.
#[derive(Clone, Copy, Debug, PartialEq, Eq)]
pub struct Plan {
    pub own: bool,
    pub parent: bool,
    pub default: bool,
    pub control: u16,
}

const NOTHING: Plan = Plan {
    own: false,
    parent: false,
    default: false,
    control: 0,
};

// P: the parent's part if auto inherit is yes and protected is no, with control bit 0400.
fn merged(own: bool, auto: bool, protect: bool) -> Plan
    ensures { result ≡ merged_of own auto protect }
{
    if auto && !protect {
        Plan {
            own,
            parent: true,
            control: 0x0400,
            ..NOTHING
        }
    } else {
        Plan { own, ..NOTHING }
    }
}

// By the table: whether the parent has an inheritable entry, and whether the creator's and the default list are present. `None` is no list at all.
pub(crate) fn plan_for(
    rule: Rule,
    s: Settings,
    heritable: bool,
    creator: bool,
    default: bool,
) -> Option<Plan>
    ensures { result ≡ plan_of (number_by rule) s heritable creator default }
{
    if heritable && creator && !s.defaulted {
        Some(merged(rule == Rule::Mended, s.auto, s.protect))
    } else if heritable {
        Some(Plan {
            parent: true,
            ..NOTHING
        })
    } else if creator {
        Some(Plan {
            own: true,
            ..NOTHING
        })
    } else {
        default.then_some(Plan {
            default: true,
            ..NOTHING
        })
    }
}

// Whether an entry is inheritable: the search ends at the first that is.
pub(crate) fn any_heritable(mut entries: Entries) -> bool
    ensures { result ≡ any_heritable (still entries.entry) }
{
    entries.any(|entry| has(entry.flags(), 3))
}
