// Names and numbers where they lie in a text.
ghost use Rattle.std.specs.Prelude.{◌≡◌, ◌-◌, ◌+◌, ◌≤◌, length, drop};
ghost use Rattle.std.specs.List.{prefix_len};
ghost use Rattle.std.specs.Char.{is_ascii_alphanumeric};
ghost use Rattle.wording.specs.Grammar.{limit};
ghost use Rattle.wording.specs.Reader.{read_digits, read_number, read_operand};
ghost use Rattle.wording.specs.Inner.Leaf.{digits_found, found_of};

use crate::walk::Wrong;

// An operand found, and where it ends: a name; or a number, with whether a minus stands before it.
#[derive(Clone, Copy)]
pub enum Operand {
    Name { end: usize },
    Number { neg: bool, v: u64, end: usize },
}

// How many letters and digits a text begins with.
fn name_length(s: &[u8]) -> usize
    ensures { result ≡ prefix_len is_ascii_alphanumeric s.now }
{
    s.iter().take_while(|b| b.is_ascii_alphanumeric()).count()
}

// The largest number of signed 64 bits: behind a minus, and without one.
fn limit_of(neg: bool) -> u64
    ensures { result ≡ limit neg }
{
    if neg {
        i64::MIN.unsigned_abs()
    } else {
        i64::MAX as u64
    }
}

// The number that begins with `first` and goes on with the digits from `at` on; wrong at the digit that leaves the range.
fn number_from(s: &[u8], at: usize, neg: bool, first: u64) -> Result<Operand, Wrong>
    requires { at ≤ length s.now }
    ensures { result ≡ digits_found (length s.now) neg first (read_digits neg first (drop at s.now)) }
{
    let most = limit_of(neg);
    let mut v = first;
    for (i, b) in s[at..].iter().enumerate() {
        if !b.is_ascii_digit() {
            return Ok(Operand::Number {
                neg,
                v,
                end: at + i,
            });
        }
        let d = u64::from(b - b'0');
        if v > (most - d) / 10 {
            return Err(Wrong { at: at + i });
        }
        v = v * 10 + d;
    }
    Ok(Operand::Number {
        neg,
        v,
        end: s.len(),
    })
}

fn read_number(s: &[u8], at: usize, neg: bool) -> Result<Operand, Wrong>
    requires { at ≤ length s.now }
    ensures { result ≡ found_of (length s.now) (read_number neg (drop at s.now)) }
{
    match s.get(at) {
        Some(b) if b.is_ascii_digit() => number_from(s, at + 1, neg, u64::from(b - b'0')),
        _ => Err(Wrong { at }),
    }
}

// A name, or a number with a minus or without.
pub(crate) fn read_operand(s: &[u8], at: usize) -> Result<Operand, Wrong>
    requires { at ≤ length s.now }
    ensures { result ≡ found_of (length s.now) (read_operand (drop at s.now)) }
{
    match s.get(at) {
        Some(b) if b.is_ascii_alphabetic() => Ok(Operand::Name {
            end: at + 1 + name_length(&s[at + 1..]),
        }),
        Some(b'-') => read_number(s, at + 1, true),
        _ => read_number(s, at, false),
    }
}
