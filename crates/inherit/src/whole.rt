// The whole result: what all passes give, measured and written.
ghost use Rattle.std.specs.Prelude.{◌≡◌, cond, ◌+◌, ◌≤◌, length};
ghost use mathlib.Core.List.{flatten};
ghost use Rattle.octets.specs.Bytes.{front};
ghost use Rattle.list.specs.List.{head_bytes};
ghost use Rattle.inherit.specs.Branch.{holds};
ghost use Rattle.inherit.specs.Inner.Still.{still};
ghost use Rattle.inherit.specs.Inner.Emit.{given_by, emit_all, measure_of};
ghost use Rattle.inherit.specs.Inner.Plan.{gathered, onward};
ghost use Rattle.inherit.specs.Inner.Ending.{Ends};

use crate::Computed;
use crate::copies::{Origin, Pass};
use crate::entries::Entries;
use crate::passes::{Measure, both, measure_pass, write_pass};
use crate::terms::Terms;
use refusal::{Fault, Refusal};

// Which entries are gone over: none of a list's where it gives nothing.
#[derive(Clone, Copy)]
pub struct Parts<'a> {
    pub own: Entries<'a>,
    pub parent: Entries<'a>,
    pub default: Entries<'a>,
}

// The length of the result is known before its first byte is written.
pub(crate) fn measure_all(parts: Parts, terms: &Terms) -> Measure
    ensures { (result ≡ measure_of (gathered (given_by terms.now) parts.entry)) × (result.bytes ≤ 25795755630) }
{
    let own = measure_pass(parts.own, Origin::Own, terms);
    let inherited = measure_pass(parts.parent, Origin::Parent, terms);
    let all = measure_pass(parts.default, Origin::Default, terms);
    both(own, both(inherited, all))
}

// A pass that writes from `at` on, straight into what is left of the result: where its entries end.
fn write_next(out: &mut [u8], at: usize, entries: Entries, pass: Pass, terms: &Terms) -> usize
    requires { at + length (flatten (emit_all (given_by terms.now) pass (still entries))) ≤ length out.old }
    ensures { (result ≡ at + length (flatten (emit_all (given_by terms.now) pass (still entries.entry))))
        × (out.new ≡ onward at (flatten (emit_all (given_by terms.now) pass (still entries.entry))) out.old) }
{
    at + write_pass(&mut out[at..], entries, pass, terms)
}

// All entries, each straight into what is left of the result.
pub(crate) fn write_all(out: &mut [u8], parts: Parts, terms: &Terms)
    requires { length (flatten (gathered (given_by terms.now) parts)) ≤ length out.old }
    ensures { out.new ≡ front (flatten (gathered (given_by terms.now) parts.entry)) out.old }
{
    let own = write_next(out, 0, parts.own, Pass::Own, terms);
    let first = write_next(out, own, parts.parent, Pass::First, terms);
    let second = write_next(out, first, parts.parent, Pass::Second, terms);
    write_next(out, second, parts.default, Pass::All, terms);
}

// Revision 4 if an object entry is among the entries, else 2.
fn rev_for(object: bool) -> u8
    ensures { result ≡ cond object 4 2 }
{
    if object { 4 } else { 2 }
}

fn put_header(out: &mut [u8], rev: u8, size: usize, count: usize)
    requires { 8 ≤ length out.old }
    ensures { out.new ≡ front (head_bytes rev size count) out.old }
{
    out[0] = rev;
    out[1] = 0;
    out[2..4].copy_from_slice(&size.to_le_bytes()[..2]);
    out[4..6].copy_from_slice(&count.to_le_bytes()[..2]);
    out[6..8].copy_from_slice(&[0, 0]);
}

// What the passes give, if there is room for it.
pub(crate) fn fill(
    out: &mut [u8],
    control: u16,
    parts: Parts,
    terms: &Terms,
) -> Result<Option<Computed>, Fault>
    ensures { Ends (holds (gathered (given_by terms.now) parts.entry) control) out.old result out.new }
{
    let m = measure_all(parts, terms);
    let size = 8 + m.bytes;
    if out.len() < size || 65532 < size {
        return Err(Fault::from(Refusal::Room));
    }
    let count = m.count;
    put_header(out, rev_for(m.object), size, count);
    write_all(&mut out[8..], parts, terms);
    Ok(Some(Computed {
        length: size as u16,
        count: count as u16,
        control,
    }))
}
