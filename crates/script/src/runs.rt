// Records one after another.
ghost use Rattle.std.specs.Prelude.{◌≡◌, take, drop};
ghost use Rattle.octets.specs.Bytes.{front};
ghost use Rattle.script.specs.Record.{step_of};
ghost use Rattle.script.specs.Fold.{carried, run_of};

use crate::records::{Flaw, Record, carry_out, step};
use octets::part_of;

// How many bytes of a slice were whole records, and whether a bad one comes next.
#[derive(Clone, Copy, Debug, PartialEq, Eq)]
pub struct Run {
    pub used: usize,
    pub bad: bool,
}

// Carries out the record at the front. Where the tree refuses it, it is passed over (RULES 6.5).
fn pass(room: &mut [u8], t: &[u8], whole: Record)
    requires { step_of t.now ≡ Ok whole }
    ensures { room.new ≡ carried whole.length t.now room.old }
{
    let _ = carry_out(room, part_of(t, 0, whole.length), whole.asks);
}

// Carries out all whole records at the front of a slice, up to a bad one. The place goes on by a record's length, and is the answer: no
// iterator does that.
pub fn feed(room: &mut [u8], s: &[u8]) -> Run
    ensures { (result.used ≡ (run_of s.now room.old).used) × ((result.bad ≡ (run_of s.now room.old).bad) × (room.new ≡ (run_of s.now room.old).room)) }
{
    let mut at = 0;
    while at < s.len() {
        let t = &s[at..];
        match step(t) {
            Ok(whole) => {
                pass(room, t, whole);
                at += whole.length;
            }
            Err(flaw) => {
                return Run {
                    used: at,
                    bad: flaw == Flaw::Bad,
                };
            }
        }
    }
    Run {
        used: at,
        bad: false,
    }
}

// Carries out the whole records in the buffer's first `held` bytes and moves what is left of those bytes to its front.
pub fn advance(room: &mut [u8], buffer: &mut [u8], held: usize) -> Run
    ensures used_value { (result.used ≡ (run_of (take held buffer.old) room.old).used) × ((result.bad ≡ (run_of (take held buffer.old) room.old).bad) × (room.new ≡ (run_of (take held buffer.old) room.old).room)) }
    ensures buffer_after { buffer.new ≡ front (drop result.used (take held buffer.old)) buffer.old }
{
    let t = part_of(buffer, 0, held);
    let n = t.len();
    let run = feed(room, t);
    buffer.copy_within(run.used..n, 0);
    run
}
