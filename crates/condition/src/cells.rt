// The stack's cells, and what a token does to them. The top one and the one below it tell all that a token needs.
ghost use Rattle.std.specs.Prelude.{◌≡◌, List, ℕ};
ghost use Rattle.octets.specs.Absent.{unless_zero};
ghost use Rattle.condition.specs.Token.{token_at};
ghost use Rattle.condition.specs.Table.{Attribute, attributes_of};
ghost use Rattle.condition.specs.Inner.Cells.{long_of, found_cell, effect, pushed, operand_in, name_in, truth_in, compared, comparison_meant, token_meant, effect_by, effect_at, live};

use crate::operators::{Comparison, Operator};
use crate::stacks::Stack;
use crate::tables::{find, key_in};
use crate::tokens::{LITERAL, NAME};
use crate::truths::Truth;

// What stands at a place of the stack; numbers by their keys. A name's stands flat: an option in it would make the cell longer by half.
#[derive(Clone, Copy)]
pub(crate) enum Cell {
    Number(u64),
    Found(u64),
    Lacking,
    Says(Truth),
    Nothing,
}

// What a token does: so many places are taken off, and a cell is laid on top.
#[derive(Clone, Copy)]
pub(crate) struct Effect {
    pub(crate) pops: usize,
    pub(crate) cell: Cell,
}

impl Cell {
    // A name that was looked for.
    fn named(found: Option<u64>) -> Cell
        ensures { result ≡ found_cell found }
    {
        match found {
            Some(key) => Cell::Found(key),
            None => Cell::Lacking,
        }
    }

    // An operand's number, none of a missing name.
    fn operand(self) -> Option<Option<u64>>
        ensures { result ≡ operand_in self }
    {
        match self {
            Cell::Number(key) | Cell::Found(key) => Some(Some(key)),
            Cell::Lacking => Some(None),
            Cell::Says(_) | Cell::Nothing => None,
        }
    }

    // Whether a name has a number.
    fn exists(self) -> Option<bool>
        ensures { result ≡ name_in self }
    {
        match self {
            Cell::Found(_) => Some(true),
            Cell::Lacking => Some(false),
            Cell::Number(_) | Cell::Says(_) | Cell::Nothing => None,
        }
    }

    // What a condition says.
    pub(crate) fn truth(self) -> Option<Truth>
        ensures { result ≡ truth_in self }
    {
        match self {
            Cell::Says(truth) => Some(truth),
            Cell::Number(_) | Cell::Found(_) | Cell::Lacking | Cell::Nothing => None,
        }
    }
}

// Two operands compared: a missing one is unknown.
fn compared(comparison: Comparison, first: Option<u64>, second: Option<u64>) -> Truth
    ensures { result ≡ compared (comparison_meant comparison) first second }
{
    match (first, second) {
        (Some(x), Some(y)) => Truth::from(comparison.holds(x, y)),
        _ => Truth::Unknown,
    }
}

// An operand is laid on where there is room.
fn pushed(top: usize, cell: Cell) -> Option<Effect>
    ensures { result ≡ pushed top cell }
{
    if top == 0 {
        return None;
    }
    Some(Effect { pops: 0, cell })
}

// A condition takes the place of what it is made of.
fn says(pops: usize, truth: Truth) -> Option<Effect>
    ensures { result ≡ Some (effect pops (Cell.Says truth)) }
{
    Some(Effect {
        pops,
        cell: Cell::Says(truth),
    })
}

// What an operator does.
#[tactic(auto, unfolding(crate::specs::Inner::Cells::effect_by))]
fn operated(operator: Operator, a: Cell, b: Cell) -> Option<Effect>
    ensures { (table : List Attribute) (top : ℕ) → result ≡ effect_by table top a b (token_meant operator) }
{
    match operator {
        Operator::Compares(comparison) => {
            let second = a.operand()?;
            let first = b.operand()?;
            says(2, compared(comparison, first, second))
        }
        Operator::Exists => says(1, Truth::from(a.exists()?)),
        Operator::And => {
            let second = a.truth()?;
            let first = b.truth()?;
            says(2, first.and(second))
        }
        Operator::Or => {
            let second = a.truth()?;
            let first = b.truth()?;
            says(2, first.or(second))
        }
        Operator::Not => says(1, a.truth()?.not()),
    }
}

// What the token of `long` bytes that `s` begins with does.
pub(crate) fn effect_of(s: &[u8], long: usize, table: &[u8], stack: &Stack) -> Option<Effect>
    requires { Some long ≡ unless_zero (long_of (token_at s.now)) }
    ensures { result ≡ effect_at (attributes_of table.now) (live stack.now.cells stack.now.top) (token_at s.now) }
{
    match s[0] {
        LITERAL => pushed(stack.free(), Cell::Number(key_in(&s[1..]))),
        NAME => pushed(stack.free(), Cell::named(find(table, &s[5..long]))),
        code => operated(Operator::from_code(code)?, stack.place(0), stack.place(1)),
    }
}
