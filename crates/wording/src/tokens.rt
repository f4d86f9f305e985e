// Tokens laid into the lent bytes where the tally ends. One that doesn't fit is counted and not laid, so a walk over no bytes measures.
ghost use Rattle.std.specs.Prelude.{◌≡◌, [], ◌∷◌, ◌+◌, ◌*◌, ◌≤◌, ◌<◌, length, leb};
ghost use Rattle.octets.specs.Bytes.{put_on};
ghost use Rattle.condition.specs.Token.{number, name as named, push};
ghost use Rattle.wording.specs.Grammar.{limit};
ghost use Rattle.wording.specs.Stored.{wide, signed_of, word_for, token_bytes};
ghost use Rattle.wording.specs.Inner.Tokens.{token_of};
ghost use Rattle.wording.specs.Inner.Walk.{put_b, Emitted, Joined};

use crate::operators::Operator;
use crate::tallies::Tally;

// Whether n bytes fit where the tally ends.
fn fits(room: usize, w: Tally, n: usize) -> bool
    ensures { result ≡ leb (w.size + n) room }
{
    w.size <= room && n <= room - w.size
}

// Bytes where the tally ends, if they fit.
fn lay(out: &mut [u8], w: Tally, bytes: &[u8])
    ensures { out.new ≡ put_b bytes.now w out.old }
{
    if fits(out.len(), w, bytes.len()) {
        octets::put(&mut out[w.size..], bytes);
    }
}

pub(crate) fn emit_op(out: &mut [u8], w: Tally, op: Operator) -> Tally
    ensures { Emitted (token_of op) w out.old result out.new }
{
    lay(out, w, &[op.code()]);
    w.note(1, op.takes())
}

// The operator of a row, behind its second part and each further one. The flag says of the part what `op` says of the row, so an Option of one is no plainer.
pub(crate) fn join(out: &mut [u8], w: Tally, joined: bool, op: Operator) -> Tally
    ensures { Joined joined (token_of op) w out.old result out.new }
{
    if joined { emit_op(out, w, op) } else { w }
}

// 64 bits, two's complement.
fn word_of(neg: bool, v: u64) -> u64
    requires { v ≤ limit neg }
    ensures { result ≡ word_for (signed_of neg v) }
{
    if neg { v.wrapping_neg() } else { v }
}

// A number's token: its eight bytes, the lowest first, then sign byte 3 and base byte 2.
fn number_bytes(m: u64) -> [u8; 11]
    ensures { result ≡ token_bytes (push (number m)) }
{
    let [a, b, c, d, e, f, g, h] = m.to_le_bytes();
    [0x04, a, b, c, d, e, f, g, h, 3, 2]
}

pub(crate) fn emit_number(out: &mut [u8], w: Tally, neg: bool, v: u64) -> Tally
    requires { v ≤ limit neg }
    ensures { Emitted (push (number (word_for (signed_of neg v)))) w out.old result out.new }
{
    lay(out, w, &number_bytes(word_of(neg, v)));
    w.note(11, 0)
}

// A name's token on the front of `to`: its code, its length in bytes, then each byte and a 0 behind it.
fn lay_name(to: &mut [u8], name: &[u8])
    requires { (length name.now ≤ 512) × (5 + 2 * length name.now ≤ length to.old) }
    ensures { to.new ≡ put_on (token_bytes (push (named (wide name.now)))) to.old }
{
    let [a, b, c, d] = (2 * name.len() as u32).to_le_bytes();
    octets::put(to, &[0xF8, a, b, c, d]);
    // By index: of a pair that `chunks_exact_mut` lends a proof knows no element afterwards.
    for (i, letter) in name.iter().enumerate() {
        to[5 + 2 * i] = *letter;
        to[6 + 2 * i] = 0;
    }
}

pub(crate) fn emit_name(out: &mut [u8], w: Tally, name: &[u8]) -> Tally
    requires { (0 < length name.now) × (length name.now ≤ 512) }
    ensures { Emitted (push (named (wide name.now))) w out.old result out.new }
{
    let n = 5 + 2 * name.len();
    if fits(out.len(), w, n) {
        lay_name(&mut out[w.size..], name);
    }
    w.note(n, 0)
}
