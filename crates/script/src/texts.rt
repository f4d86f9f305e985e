// The program's text. Each writer puts its bytes at a place of what is lent, as many as there is room for, and answers where they end: so
// the same function measures a text and writes it. A struct that lends `out` would name the loan in each clause: no plainer than the two.
ghost use Rattle.std.specs.Prelude.{◌≡◌, true, false, ◌++◌, ◌+◌, ◌≤◌, ◌<◌, length, drop};
ghost use Rattle.tree.specs.Shown.{lists_in};
ghost use Rattle.tree.specs.Formed.{formed};
ghost use Rattle.tree.specs.Room.{objects, slot};
ghost use Rattle.tree.specs.Held.{held};
ghost use Rattle.script.specs.Text.{decimal as Text·decimal, line, listing as Text·listing, bad_line, newline, columns_by};
ghost use Rattle.script.specs.Inner.Laying.{laid_at};
ghost use Rattle.tree.specs.Calls.{Promised};
ghost use Rattle.script.specs.Play.{Listed as Ending-as-Listed, BadAt as Ending-as-BadAt, text_to, listing_to};

use refusal::{Fault, Refusal};
use tree::Done;

// Puts bytes at `at`.
#[tactic(auto, using(crate::proofs::Laid::put_rules))]
fn put_bytes(out: &mut [u8], at: usize, s: &[u8]) -> usize
    requires { (at ≤ 65536) × (length s.now ≤ 65536) }
    ensures { (result ≡ at + length s.now) × (out.new ≡ laid_at at s.now out.old) }
{
    let end = at + s.len();
    if at < out.len() {
        octets::put(&mut out[at..], s);
    }
    end
}

// Fills the end of `text`, twenty bytes, with n in decimal and says where it begins. By hand: std's `write!` promises nothing of when it
// succeeds, and the text is promised (`text_to`).
fn decimal(n: u64, text: &mut [u8]) -> usize
    requires { length text.old ≡ 20 }
    ensures { (result ≤ 20) × (drop result text.new ≡ Text·decimal n) }
{
    let mut rest = n;
    for i in (0..20).rev() {
        text[i] = 48 + (rest % 10) as u8;
        rest /= 10;
        if rest == 0 {
            return i;
        }
    }
    0
}

// Puts a number at `at`.
#[tactic(auto, using(crate::proofs::Laid::number_rules))]
fn put_decimal(out: &mut [u8], at: usize, n: u64) -> usize
    requires { at ≤ 65536 }
    ensures { (result ≡ at + length (Text·decimal n)) × ((result ≤ at + 20) × (out.new ≡ laid_at at (Text·decimal n) out.old)) }
{
    let mut text = [0u8; 20];
    let from = decimal(n, &mut text);
    put_bytes(out, at, &text[from..20])
}

// Puts a list's length and entry count at `at`, and ends the line.
#[tactic(auto, using(crate::proofs::Listings::columns_none))]
fn put_columns(out: &mut [u8], at: usize, list: Done) -> usize
    requires { at ≤ 60000 }
    ensures { (result ≡ at + length (columns_by list.length list.present list.count ++ newline)) × ((result ≤ at + 42) × (out.new ≡ laid_at at (columns_by list.length list.present list.count ++ newline) out.old)) }
{
    if !list.present {
        return put_bytes(out, at, b"none 0\n");
    }
    let a = put_decimal(out, at, list.length as u64);
    let b = put_bytes(out, a, b" ");
    let c = put_decimal(out, b, list.count as u64);
    put_bytes(out, c, b"\n")
}

// Puts object i's line at `at`. The tree refuses no list of an object that stands, and there is room for each. That a room is formed stays a clause: the room is lent, and a type
// over it would be tree's.
fn put_line(out: &mut [u8], at: usize, room: &[u8], i: usize) -> usize
    requires { (at ≤ 50000) × ((formed room.now ≡ true) × (i < objects room.now)) }
    ensures { (result ≡ at + length (line i (held (slot i room.now)))) × ((result ≤ at + 63) × (out.new ≡ laid_at at (line i (held (slot i room.now))) out.old)) }
{
    let a = put_decimal(out, at, i as u64);
    let b = put_bytes(out, a, b" ");
    let list = tree::list_of(room, i as u32, &mut [0u8; 1024]).unwrap();
    put_columns(out, b, list)
}

// Puts the listing of n objects on the front and says how long it is.
fn lay_listing(room: &[u8], n: usize, out: &mut [u8]) -> usize
    requires { (formed room.now ≡ true) × (n ≡ objects room.now) }
    ensures { (result ≡ length (Text·listing (lists_in room.now))) × ((result ≤ 5000) × (out.new ≡ laid_at 0 (Text·listing (lists_in room.now)) out.old)) }
{
    let a = put_bytes(out, 0, b"objects ");
    let b = put_decimal(out, a, n as u64);
    let mut at = put_bytes(out, b, b"\n");
    for i in 0..n {
        at = put_line(out, at, room, i);
    }
    at
}

// Measures the listing, and writes it where there is room.
fn give_listing(room: &[u8], n: u16, out: &mut [u8]) -> Result<Done, Fault>
    requires { (formed room.now ≡ true) × (n ≡ objects room.now) }
    ensures { Promised (text_to (Ending-as-Listed (lists_in room.now)) out.old) result out.new }
{
    let long = lay_listing(room, n as usize, &mut [0u8; 1]);
    if out.len() < long {
        return Err(Refusal::Room.into());
    }
    lay_listing(room, n as usize, out);
    Ok(Done {
        length: long as u16,
        present: true,
        count: n,
    })
}

// Writes a tree's listing.
pub fn listing(room: &[u8], out: &mut [u8]) -> Result<Done, Fault>
    ensures { Promised (listing_to room.now out.old) result out.new }
{
    let counts = tree::counts(room)?;
    give_listing(room, counts.length, out)
}

// Puts the line that ends a run on the front and says how long it is.
#[tactic(auto, using(crate::proofs::Laid::text_rules), unfolding(crate::specs::Text::bad_line))]
fn lay_bad(n: u64, out: &mut [u8]) -> usize
    ensures { (result ≡ length (bad_line n)) × ((result ≤ 28) × (out.new ≡ laid_at 0 (bad_line n) out.old)) }
{
    let a = put_bytes(out, 0, b"bad at ");
    let b = put_decimal(out, a, n);
    put_bytes(out, b, b"\n")
}

// Writes the line that says where a script is bad.
pub fn bad_at(n: u64, out: &mut [u8]) -> Result<Done, Fault>
    ensures { Promised (text_to (Ending-as-BadAt n) out.old) result out.new }
{
    let long = lay_bad(n, &mut [0u8; 1]);
    if out.len() < long {
        return Err(Refusal::Room.into());
    }
    lay_bad(n, out);
    Ok(Done {
        length: long as u16,
        present: false,
        count: 0,
    })
}
