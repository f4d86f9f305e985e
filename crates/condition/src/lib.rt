// Conditional expressions in their stored form: which are acceptable, and what they say under a table of names.
#![tactic(auto)]

ghost use Rattle.std.specs.Prelude.{◌≡◌, ◌<◌};
ghost use Rattle.octets.specs.Absent.{unless_zero};
ghost use Rattle.condition.specs.Kind.{stored_end, stored_alone};
ghost use Rattle.condition.specs.Table.{table_ok};
ghost use Rattle.condition.specs.Meaning.{said_by, evaluate_of};

mod cells;
mod operators;
mod runs;
mod stacks;
mod tables;
mod tokens;
mod truths;

use refusal::Refusal;
use runs::run;
use tables::well_made;
pub use truths::Truth;

// Where the tokens of an acceptable expression end; none where it isn't acceptable.
pub fn check(expression: &[u8]) -> Option<usize>
    ensures { result ≡ unless_zero (stored_end expression.now) }
{
    run(expression, &[]).map(|ran| ran.end)
}

// What an acceptable expression says under a table; of any other bytes nothing is known.
pub fn said(expression: &[u8], table: &[u8]) -> Truth
    ensures { result ≡ said_by expression.now table.now }
{
    run(expression, table).map_or(Truth::Unknown, |ran| ran.truth)
}

// Whether a table of names is made as it must be.
pub fn table_ok(table: &[u8]) -> bool
    ensures { result ≡ table_ok table.now }
{
    well_made(table)
}

// Whether an expression, whose tokens end at `end`, is alone: without padding, or padded to a multiple of four.
#[tactic(auto, unfolding(crate::specs::Kind::stored_alone, crate::specs::Kind::up_to_four))]
fn is_alone(expression: &[u8], end: usize) -> bool
    requires { (end ≡ stored_end expression.now) × (0 < end) }
    ensures { result ≡ stored_alone expression.now }
{
    expression.len() == end || expression.len() == 4 * end.div_ceil(4)
}

// What an expression, alone, says under a table; refused where it isn't acceptable, and where the table isn't made so.
pub fn evaluate(expression: &[u8], table: &[u8]) -> Result<Truth, Refusal>
    ensures { result ≡ evaluate_of expression.now table.now }
{
    let ran = run(expression, table).ok_or(Refusal::Expression)?;
    if !is_alone(expression, ran.end) {
        return Err(Refusal::Expression);
    }
    if !table_ok(table) {
        return Err(Refusal::Table);
    }
    Ok(ran.truth)
}
