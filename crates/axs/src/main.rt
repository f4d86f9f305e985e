// The script program: plays the script on standard input and writes the listing, or the line that says where the script is bad.
// Records are played as they come in, through a buffer that holds the longest one, so a script may have any length. What is made of a
// read, and what is said in the end, are promised by an equation each; standard input is read in one place, each of the two outputs is
// written in one, and what no contract can say is that these places are reached: `read_all`, `write_some`, `write_all`, `say` and `main`
// are to be read.
#![tactic(auto)]

ghost use Rattle.std.specs.Prelude.{◌+◌, ◌-◌, ◌≤◌, ◌<◌, [], ◌≡◌, length, take, drop};
ghost use Rattle.std.specs.Io.{WritesAtMost};
ghost use Rattle.axs.specs.Counts.{answer_of};
ghost use Rattle.axs.specs.Reads.{on_head, on_records, after_read, Reached};
ghost use Rattle.axs.specs.Speech.{speech, Spoken, RunSays, Written};
ghost use Rattle.axs.specs.Inner.Bounds.{bound_at};
ghost use Rattle.axs.specs.Inner.Buffered.{read_by, stand_at, course_at, Onward, Listable};

use place::{BUFFER, Place};
use std::io;
use std::io::{Read, Stdin, Write};

mod place;

// Longer than any listing.
const TEXT: usize = 4096;

// The longest input, 2^63 bytes.
const MOST: u64 = 9223372036854775808;

// How a run ended: by a whole record, by a bad or cut one, or because the input could not be read.
#[derive(Clone, Copy, Debug, PartialEq, Eq)]
enum End {
    Whole,
    Bad { at: u64 },
    Failed,
}

// The bytes held are the head's.
#[tactic(auto, unfolding(crate::specs::Inner::Bounds::bound_at, crate::specs::Inner::Buffered::Onward))]
fn head_in(room: &mut [u8; script::ROOM], buffer: &[u8; BUFFER], held: usize) -> Result<Place, End>
    requires { held ≤ 5 }
    ensures room_after { course_at result buffer.now room.new ≡ on_head (take held buffer.now) room.old }
    ensures onward { Onward 0 held result }
{
    if held < 5 {
        return Ok(Place { at: 0, held });
    }
    if !script::head_ok(&buffer[..held]) {
        return Err(End::Bad { at: 0 });
    }
    let _ = script::begin(room);
    Ok(Place { at: 5, held: 0 })
}

// The bytes held are records, and perhaps the front of one.
#[tactic(auto, unfolding(crate::specs::Inner::Bounds::bound_at, crate::specs::Inner::Buffered::Onward))]
fn records_in(
    room: &mut [u8; script::ROOM],
    buffer: &mut [u8; BUFFER],
    at: u64,
    held: usize,
) -> Result<Place, End>
    requires { (1 ≤ at) × ((at ≤ 9223372036854775808) × (held ≤ 66112)) }
    ensures room_after { course_at result buffer.new room.new ≡ on_records at (take held buffer.old) room.old }
    ensures onward { Onward at held result }
{
    let run = script::advance(room, buffer, held);
    let next = at + run.used as u64;
    if MOST < next {
        Err(End::Failed)
    } else if run.bad {
        Err(End::Bad { at: next })
    } else {
        Ok(Place {
            at: next,
            held: held - run.used,
        })
    }
}

// What a read leads to that was lent the buffer's bytes behind those that are held, up to the bound: the place from which the run goes on,
// or how it ended.
#[tactic(auto, unfolding(crate::specs::Inner::Bounds::bound_at, crate::specs::Inner::Buffered::Onward))]
fn go_on(
    room: &mut [u8; script::ROOM],
    buffer: &mut [u8; BUFFER],
    place: Place,
    read: io::Result<usize>,
) -> Result<Place, End>
    ensures room_after { course_at result buffer.new room.new ≡ after_read (stand_at place.at place.held buffer.old room.old) (read_by (answer_of read) (bound_at place.at - place.held) (drop place.held buffer.old)) }
    ensures onward { Onward place.at (place.held + 1) result }
{
    let Ok(n) = read else {
        return Err(End::Failed);
    };
    let n = n.min(place.bound() - place.held);
    if n == 0 {
        return Err(place.end());
    }
    if place.at == 0 {
        head_in(room, buffer, place.held + n)
    } else {
        records_in(room, buffer, place.at, place.held + n)
    }
}

// Reads until the run is over.
fn read_all(mut input: Stdin, room: &mut [u8; script::ROOM], buffer: &mut [u8; BUFFER]) -> End
    ensures { Reached room.old result room.new }
{
    let mut place = Place { at: 0, held: 0 };
    loop {
        let most = place.bound();
        let read = input.read(&mut buffer[place.held..most]);
        match go_on(room, buffer, place, read) {
            Ok(next) => place = next,
            Err(end) => return end,
        }
    }
}

// Where a text goes.
#[derive(Clone, Copy, Debug, PartialEq, Eq)]
enum Channel {
    Output,
    Error,
}

// What is said, and where.
#[derive(Clone, Copy, Debug, PartialEq, Eq)]
struct Said<'a> {
    to: Channel,
    text: &'a [u8],
}

// The text of a run that is over. `script` refuses for want of room alone, and there is room for every text. Nothing is listed of an
// input that could not be read to its end.
fn text_of<'a>(end: End, room: &[u8], out: &'a mut [u8; TEXT]) -> Said<'a>
    requires { Listable end room.now }
    ensures { Spoken result (speech end room.now) }
{
    let answer = match end {
        End::Whole => script::listing(room, out),
        End::Bad { at } => script::bad_at(at, out),
        End::Failed => {
            return Said {
                to: Channel::Error,
                text: b"axs: standard input could not be read\n",
            };
        }
    };
    match answer {
        Ok(done) => Said {
            to: Channel::Output,
            text: &out[..done.length as usize],
        },
        Err(_) => Said {
            to: Channel::Error,
            text: &[],
        },
    }
}

// Plays what comes in, and says what came of it.
fn run<'a>(
    input: Stdin,
    room: &mut [u8; script::ROOM],
    buffer: &mut [u8; BUFFER],
    out: &'a mut [u8; TEXT],
) -> Said<'a>
    ensures { RunSays room.old result }
{
    let end = read_all(input, room, buffer);
    text_of(end, room, out)
}

// Writes as much of a text as standard output or standard error takes at once.
fn write_some(rt: HostRuntime, to: Channel, text: &[u8]) -> io::Result<usize>
    ensures { WritesAtMost result text.now }
{
    match to {
        Channel::Output => rt.stdout().write(text),
        Channel::Error => rt.stderr().write(text),
    }
}

// Writes a text, and says whether all of it was taken. By hand: std's `write_all` says nothing of its writes, and `Written` does.
fn write_all(rt: HostRuntime, to: Channel, text: &[u8]) -> bool
    ensures { Written (length text.now) result }
{
    let mut left = text;
    while !left.is_empty() {
        let n = write_some(rt, to, left).unwrap_or(0);
        if n == 0 {
            return false;
        }
        left = &left[n..];
    }
    true
}

// Where standard output doesn't take the whole text, standard error says so.
fn say(rt: HostRuntime, said: Said) {
    if !write_all(rt, said.to, said.text) && said.to == Channel::Output {
        write_all(
            rt,
            Channel::Error,
            b"axs: standard output could not be written whole\n",
        );
    }
}

fn main(rt: HostRuntime) {
    let mut room = [0u8; script::ROOM];
    let mut buffer = [0u8; BUFFER];
    let mut out = [0u8; TEXT];
    let said = run(rt.stdin(), &mut room, &mut buffer, &mut out);
    say(rt, said);
}
