// Conditions typed as text, translated to the stored form of conditional expressions.
#![tactic(auto)]

ghost use Rattle.std.specs.Prelude.{◌≡◌, ◌≤◌, length};
ghost use Rattle.wording.specs.Translation.{text_fault, translation_of, out_after};
ghost use Rattle.refusal.specs.declared.Refusal.TheVariants.{Text};
ghost use Rattle.wording.specs.Inner.Walk.{start_place, decide_at, Wrote};

mod bytes;
mod conditions;
mod operands;
mod operators;
mod signs;
mod tallies;
mod tokens;
mod walk;

use conditions::read_condition;
use refusal::Refusal;
use tallies::Tally;
use walk::{Place, Text, Wrong};

const MOST_TEXT: usize = 512;

const MOST_TOKENS: usize = 64;

const MOST_DEEP: usize = 16;

const MOST_OPEN: usize = 12;

// The stored form's length and the number of its tokens.
#[derive(Clone, Copy, Debug, PartialEq, Eq)]
pub struct Stored {
    pub size: usize,
    pub tokens: usize,
}

// Why a text has no stored form, and where the text goes wrong: 0 unless it is `Refusal::Text`, as the C interface tells it.
#[derive(Clone, Copy, Debug, PartialEq, Eq)]
pub struct TextFault {
    pub why: Refusal,
    pub at: usize,
}

// A text that goes wrong is refused there.
impl From<Wrong> for TextFault {
    ghost from_gives = { λ wrong fault. fault ≡ text_fault Text wrong.at };

    fn from(wrong: Wrong) -> TextFault {
        TextFault {
            why: Refusal::Text,
            at: wrong.at,
        }
    }
}

// A walk begins at the front of the text, with the four bytes at the front of the stored form counted, and nothing else.
fn start() -> Place
    ensures { result ≡ start_place }
{
    Place {
        at: 0,
        tally: Tally {
            tokens: 0,
            size: 4,
            height: 0,
            highest: 0,
        },
    }
}

// A walk that came to an end, in a text of so many bytes, with so much room for its stored form.
#[tactic(auto, unfolding(octets::specs::Order::need))]
fn decide_at(end: Place, len: usize, room: usize) -> Result<Stored, TextFault>
    ensures { result ≡ decide_at end.at end.tally len room }
{
    let Place { at, tally } = end;
    if at < len {
        return Err(TextFault {
            why: Refusal::Text,
            at,
        });
    }
    if MOST_TOKENS < tally.tokens || MOST_DEEP < tally.highest {
        return Err(TextFault {
            why: Refusal::Large,
            at: 0,
        });
    }
    if room < tally.size {
        return Err(TextFault {
            why: Refusal::Room,
            at: 0,
        });
    }
    Ok(Stored {
        size: tally.size,
        tokens: tally.tokens,
    })
}

// The four bytes at the front, then the tokens of a text in which the first walk found nothing wrong.
fn write(s: &Text, out: &mut [u8])
    requires { 4 ≤ length out.old }
    ensures { Wrote s.now.bytes.now out.old out.new }
{
    octets::put(out, b"artx");
    let front = start();
    let _ = read_condition(s, front.at, &front.tally, MOST_OPEN, out);
}

// The stored form of a text on the front of `out`. The first walk is lent no room: it reads and counts. Nothing is written before all is decided.
pub fn translate(text: &[u8], out: &mut [u8]) -> Result<Stored, TextFault>
    ensures { (result ≡ translation_of text.now (length out.old)) × (out.new ≡ out_after text.now out.old) }
{
    if MOST_TEXT < text.len() {
        return Err(TextFault {
            why: Refusal::Text,
            at: MOST_TEXT,
        });
    }
    let s = &Text { bytes: text };
    let front = start();
    // not by `?`: an edit changes the offset here (translate_offset_at_the_end)
    let end = match read_condition(s, front.at, &front.tally, MOST_OPEN, &mut out[..0]) {
        Ok(end) => end,
        Err(wrong) => return Err(TextFault::from(wrong)),
    };
    let stored = decide_at(end, text.len(), out.len())?;
    write(s, out);
    Ok(stored)
}
