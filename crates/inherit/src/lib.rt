// The computation of a new object's list.
#![tactic(auto)]

ghost use Rattle.std.specs.Prelude.{◌≡◌, [], cond};
ghost use Rattle.std.specs.Option.{is_some};
ghost use Rattle.inherit.specs.Copies.{any_heritable};
ghost use Rattle.inherit.specs.Compute.{asked_by, Answers};
ghost use Rattle.inherit.specs.Asked.{lent_list};
ghost use Rattle.inherit.specs.Inner.Still.{still, held};
ghost use Rattle.inherit.specs.Inner.Rules.{number_by};
ghost use Rattle.inherit.specs.Inner.Emit.{given_by};
ghost use Rattle.inherit.specs.Inner.Plan.{plan_of, planned, result_by};
ghost use Rattle.inherit.specs.Inner.Ending.{Ends};

use branch::{any_heritable, plan_for};
use entries::Entries;
use refusal::{Fault, Refusal};
use rules::Rule;
use terms::Terms;
use tests::{four_of, ordinary, source_of, types_ok};
use whole::{Parts, fill};

mod branch;
mod copies;
mod entries;
mod last;
mod passes;
mod rules;
mod terms;
mod tests;
mod whole;

// Yes or no: whether the object is a container, and the three settings.
#[derive(Clone, Copy)]
pub struct Settings {
    pub container: bool,
    pub auto: bool,
    pub defaulted: bool,
    pub protect: bool,
}

// What the generic bits of a mask stand for.
#[derive(Clone, Copy)]
pub struct Mapping {
    pub read: u32,
    pub write: u32,
    pub execute: u32,
    pub all: u32,
}

// A list on the front of the result: its length, how many entries it has, and its control bits.
#[derive(Clone, Copy, Debug, PartialEq, Eq)]
pub struct Computed {
    pub length: u16,
    pub count: u16,
    pub control: u16,
}

// A list's entries, or none of them where it is absent or gives nothing.
fn part_of<'a>(gives: bool, list: Option<Entries<'a>>) -> Entries<'a>
    ensures { still result ≡ cond gives (held list.entry) [] }
{
    match list {
        Some(entries) if gives => entries,
        _ => Entries {
            bytes: &[],
            left: 0,
        },
    }
}

// The three lists, each as its entries where it is present.
#[derive(Clone, Copy)]
struct Lists<'a> {
    own: Option<Entries<'a>>,
    parent: Option<Entries<'a>>,
    default: Option<Entries<'a>>,
}

// The computation, once everything was tested but the room.
fn run(
    settings: Settings,
    lists: Lists,
    terms: &Terms,
    out: &mut [u8],
) -> Result<Option<Computed>, Fault>
    ensures { let parent = held lists.entry.parent in
        let plan = plan_of (number_by terms.now.rule) settings (any_heritable parent) (is_some lists.entry.own) (is_some lists.entry.default) in
        Ends (result_by plan (planned (given_by terms.now) plan parent (held lists.entry.own) (held lists.entry.default))) out.old result out.new }
{
    let heritable = any_heritable(part_of(true, lists.parent));
    let creator = lists.own.is_some();
    let default = lists.default.is_some();
    let Some(plan) = plan_for(terms.rule, settings, heritable, creator, default) else {
        return Ok(None);
    };
    let parts = Parts {
        own: part_of(plan.own, lists.own),
        parent: part_of(plan.parent, lists.parent),
        default: part_of(plan.default, lists.default),
    };
    fill(out, plan.control, parts, terms)
}

// The list of a new object, on the front of the result; `None` is no list. Its parameters are C's call's; of the rule any number may come in.
pub fn compute(
    rule: u32,
    settings: Settings,
    mapping: Mapping,
    parent: Option<&[u8]>,
    creator: Option<&[u8]>,
    default: Option<&[u8]>,
    types: &[u8],
    owner: &[u8],
    group: &[u8],
    out: &mut [u8],
) -> Result<Option<Computed>, Fault>
    ensures { Answers (asked_by rule settings mapping (lent_list parent.entry) (lent_list creator.entry) (lent_list default.entry) types.now owner.now group.now) out.old result out.new }
{
    let rule = Rule::try_from(rule)?;
    let inherited = source_of(parent, 1)?;
    let own = source_of(creator, 2)?;
    let all = source_of(default, 3)?;
    if !ordinary(owner) || !ordinary(group) {
        return Err(Fault::from(Refusal::Identity));
    }
    if !types_ok(types) {
        return Err(Fault::from(Refusal::Types));
    }
    let four = four_of(types);
    let terms = Terms {
        rule,
        container: settings.container,
        mapping,
        types: &four[..types.len() / 16],
        owner,
        group,
    };
    let lists = Lists {
        own,
        parent: inherited,
        default: all,
    };
    run(settings, lists, &terms, out)
}
