// Conditions, terms and factors: functions that call each other in a cycle, as the grammar does. One walk reads, counts and writes: a token that doesn't
// fit into what is lent is counted and not written, so the same walk over an empty part of the buffer measures.
ghost use Rattle.std.specs.Prelude.{◌≡◌, false, ◌≤◌, ◌<◌, length};
ghost use Rattle.wording.specs.Reader.{condition, term, factor};
ghost use Rattle.wording.specs.Inner.Walk.{OperandAt, ComparedAt, ParsedAt};
ghost use Rattle.wording.specs.Inner.Rows.{row_of, part_of, sign_in, operator_in};

use crate::bytes::byte_is;
use crate::operands::{Operand, read_operand};
use crate::operators::Operator;
use crate::signs::read_sign;
use crate::tallies::Tally;
use crate::tokens::{emit_name, emit_number, emit_op, join};
use crate::walk::{Place, Text, Wrong};

// What is made of parts with a sign between them: a condition of terms, a term of factors.
#[derive(Clone, Copy)]
pub enum Row {
    Condition,
    Term,
}

impl Row {
    // The byte that stands twice between two parts.
    fn sign(self) -> u8
        ensures value { result ≡ sign_in self }
        ensures some { 0 < result }
    {
        match self {
            Row::Condition => b'|',
            Row::Term => b'&',
        }
    }

    fn operator(self) -> Operator
        ensures { result ≡ operator_in self }
    {
        match self {
            Row::Condition => Operator::Or,
            Row::Term => Operator::And,
        }
    }
}

// An operand, and its token.
fn take_operand(s: &Text, at: usize, tally: &Tally, out: &mut [u8]) -> Result<Place, Wrong>
    requires { at ≤ length s.now.bytes.now }
    ensures { OperandAt s.now.bytes.now at tally.now out.old result out.new }
{
    match read_operand(s.bytes, at)? {
        Operand::Name { end } => Ok(Place {
            at: end,
            tally: emit_name(out, *tally, &s.bytes[at..end]),
        }),
        Operand::Number { neg, v, end } => Ok(Place {
            at: end,
            tally: emit_number(out, *tally, neg, v),
        }),
    }
}

// Two operands with a comparison between them, whose token stands behind theirs. Apart from a factor, so that one in parentheses takes less stack.
#[inline(never)]
fn read_comparison(s: &Text, at: usize, tally: &Tally, out: &mut [u8]) -> Result<Place, Wrong>
    requires { at ≤ length s.now.bytes.now }
    ensures { ComparedAt s.now.bytes.now at tally.now out.old result out.new }
{
    let left = take_operand(s, at, tally, out)?;
    let (comparison, behind) = read_sign(s.bytes, left.at)?;
    let right = take_operand(s, behind, &left.tally, out)?;
    Ok(Place {
        at: right.at,
        tally: emit_op(out, right.tally, comparison),
    })
}

// Terms joined by `||`. This and the next stay by name: document 01 has condition, term and factor functions that call each other.
#[cycle(read_condition_read_factor_read_term)]
pub(crate) fn read_condition(
    s: &Text,
    at: usize,
    tally: &Tally,
    depth: usize,
    out: &mut [u8],
) -> Result<Place, Wrong>
    requires { at ≤ length s.now.bytes.now }
    ensures { ParsedAt condition false s.now.bytes.now at depth tally.now out.old result out.new }
{
    read_row(s, at, tally, depth, Row::Condition, false, out)
}

// Factors joined by `&&`.
#[cycle(read_condition_read_factor_read_term)]
fn read_term(
    s: &Text,
    at: usize,
    tally: &Tally,
    depth: usize,
    out: &mut [u8],
) -> Result<Place, Wrong>
    requires { at ≤ length s.now.bytes.now }
    ensures { ParsedAt term false s.now.bytes.now at depth tally.now out.old result out.new }
{
    read_row(s, at, tally, depth, Row::Term, false, out)
}

// The parts of a row; `joined` where its sign stands before the first one, behind which its operator is written then. Seven
// parameters are what the grammar's functions hand on: a `Place` of two of them would be copied at each step (docs/DESIGN-PASS.md has what that takes).
#[cycle(read_condition_read_factor_read_term)]
fn read_row(
    s: &Text,
    at: usize,
    tally: &Tally,
    depth: usize,
    row: Row,
    joined: bool,
    out: &mut [u8],
) -> Result<Place, Wrong>
    requires { at ≤ length s.now.bytes.now }
    ensures { ParsedAt (row_of row) joined s.now.bytes.now at depth tally.now out.old result out.new }
{
    let part = read_part(s, at, tally, depth, row, out)?;
    let at = part.at;
    let tally = join(out, part.tally, joined, row.operator());
    if !byte_is(s.bytes, at, row.sign()) {
        return Ok(Place { at, tally });
    }
    if !byte_is(s.bytes, at + 1, row.sign()) {
        return Err(Wrong { at: at + 1 });
    }
    read_row(s, at + 2, &tally, depth, row, true, out)
}

#[cycle(read_condition_read_factor_read_term)]
fn read_part(
    s: &Text,
    at: usize,
    tally: &Tally,
    depth: usize,
    row: Row,
    out: &mut [u8],
) -> Result<Place, Wrong>
    requires { at ≤ length s.now.bytes.now }
    ensures { ParsedAt (part_of row) false s.now.bytes.now at depth tally.now out.old result out.new }
{
    match row {
        Row::Condition => read_term(s, at, tally, depth, out),
        Row::Term => read_factor(s, at, tally, depth, out),
    }
}

// A factor in parentheses is again a whole condition; `depth` more of them may be opened.
#[cycle(read_condition_read_factor_read_term)]
fn read_factor(
    s: &Text,
    at: usize,
    tally: &Tally,
    depth: usize,
    out: &mut [u8],
) -> Result<Place, Wrong>
    requires { at ≤ length s.now.bytes.now }
    ensures { ParsedAt factor false s.now.bytes.now at depth tally.now out.old result out.new }
{
    if byte_is(s.bytes, at, b'!') {
        let inner = read_factor(s, at + 1, tally, depth, out)?;
        return Ok(Place {
            at: inner.at,
            tally: emit_op(out, inner.tally, Operator::Not),
        });
    }
    if !byte_is(s.bytes, at, b'(') {
        return read_comparison(s, at, tally, out);
    }
    if depth == 0 {
        return Err(Wrong { at });
    }
    let inner = read_condition(s, at + 1, tally, depth - 1, out)?;
    if !byte_is(s.bytes, inner.at, b')') {
        return Err(Wrong { at: inner.at });
    }
    Ok(Place {
        at: inner.at + 1,
        tally: inner.tally,
    })
}
