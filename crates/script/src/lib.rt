// Plays scripts on a tree of objects: one record, records one after another, the listing's text, a whole script.
#![tactic(auto)]

ghost use Rattle.std.specs.Prelude.{◌≡◌, length};
ghost use Rattle.tree.specs.Calls.{Promised};
ghost use Rattle.script.specs.Play.{script_head_ok, begin_to, play_to};

use inherit::Mapping;
use octets::half_in;
use refusal::Fault;
use tree::Done;

mod records;
mod runs;
mod texts;

pub use records::{Asks, Flaw, Record, step};
pub use runs::{Run, advance, feed};
pub use texts::{bad_at, listing};

// How many bytes of room a script's tree needs: 16 objects and 16 steps.
pub const ROOM: usize = 55400;

// The script's head: `AXS` and the 16-bit version 1.
#[tactic(auto, unfolding(crate::specs::Play::script_head_ok))]
pub fn head_ok(script: &[u8]) -> bool
    ensures { result ≡ script_head_ok script.now }
{
    5 <= script.len() && script.starts_with(b"AXS") && half_in(script, 3) == 1
}

// Starts a script's tree: limits 16 and 16, rule 2, its mapping and no default (RULES 6.4).
#[tactic(auto, unfolding(crate::specs::Play::begin_to))]
pub fn begin(room: &mut [u8]) -> Result<Done, Fault>
    ensures { Promised (begin_to room.old) result room.new }
{
    tree::start(
        room,
        16,
        16,
        2,
        Mapping {
            read: 0x00120089,
            write: 0x00120116,
            execute: 0x001200A0,
            all: 0x001F01FF,
        },
        None,
    )
}

// Plays a whole script in a room of 55,400 bytes, whatever it held.
fn play_in(room: &mut [u8], script: &[u8], out: &mut [u8]) -> Result<Done, Fault>
    requires { length room.old ≡ 55400 }
    ensures { Promised (play_to script.now out.old) result out.new }
{
    if !head_ok(script) {
        return bad_at(0, out);
    }
    let _ = begin(room);
    let run = feed(room, &script[5..]);
    let end = 5 + run.used;
    if end < script.len() {
        return bad_at(end as u64, out);
    }
    listing(room, out)
}

// Plays a whole script in a room of its own and writes the program's text.
pub fn play(script: &[u8], out: &mut [u8]) -> Result<Done, Fault>
    ensures { Promised (play_to script.now out.old) result out.new }
{
    let mut room = [0u8; ROOM];
    play_in(&mut room, script, out)
}
