// The calls of the C library, which capi_c exports: thin, one for each public call of the layers, and nothing else.
#![tactic(auto)]

ghost use Rattle.std.specs.Prelude.{◌≡◌, [], length};
ghost use Rattle.octets.specs.Bytes.{has as Given·has};
ghost use Rattle.condition.specs.Meaning.{evaluate_of};
ghost use Rattle.wording.specs.Translation.{translation_of, out_after};
ghost use Rattle.list.specs.Identity.{identity_of};
ghost use Rattle.list.specs.Entry.{access};
ghost use Rattle.list.specs.List.{read_of, row_by, lent};
ghost use Rattle.list.specs.Answer.{refused, read_values};
ghost use Rattle.refusal.specs.Numbers.{number_of};
ghost use Rattle.access.specs.Open.{may_open_of, access_values, question_by};
ghost use Rattle.access.specs.Walk.{found_values, pointed_values, pointed_of};
ghost use Rattle.sidebyside.specs.Compare.{compared_of, compared_values, row_after};
ghost use Rattle.tree.specs.Room.{room_of};
ghost use Rattle.tree.specs.Calls.{list as Edit·list, mark as Edit·mark, owners as Edit·owners, answer_values as Calls·values_of, object_for, start_to, add_to, alter_to, undo_to, list_to, own_to, data_to, counts_to};
ghost use Rattle.script.specs.Play.{play_to};
ghost use Rattle.capi.specs.Places.{places_of, truth_number, evaluated_values, translated_values, settings_of, mapping_from, yes_of, new_of, computing, Computes, found_places, entry_places, Told32};

use access::Found;
use condition::Truth;
use inherit::{Mapping, Settings};
use list::Placeholder;
use refusal::Fault;
use tree::Done;

// The values of an answer; each has its place (RULES 8.1).
#[derive(Clone, Copy)]
struct Values {
    number: u32,
    list: u32,
    offset: u32,
    length: u32,
    present: u32,
    count: u32,
    control: u32,
    end: u32,
}

// What is not told is zero.
const UNTOLD: Values = Values {
    number: 0,
    list: 0,
    offset: 0,
    length: 0,
    present: 0,
    count: 0,
    control: 0,
    end: 0,
};

fn put_values(answer: &mut [u32; 8], v: Values)
    ensures { answer.new ≡ places_of (record { number = v.number; list = v.list; offset = v.offset; length = v.length; present = v.present; count = v.count; control = v.control; end = v.end }) }
{
    *answer = [
        v.number, v.list, v.offset, v.length, v.present, v.count, v.control, v.end,
    ];
}

// A refusal, the list that it concerns and the offset of its entry.
fn put_fault(answer: &mut [u32; 8], fault: Fault)
    ensures { answer.new ≡ places_of (refused (number_of fault.why) fault.list fault.at) }
{
    put_values(
        answer,
        Values {
            number: u32::from(fault.why.number()),
            list: u32::from(fault.list),
            offset: u32::from(fault.at),
            ..UNTOLD
        },
    );
}

// A flag that is passed as a bit of a number.
fn has(bits: u32, bit: u32) -> bool
    ensures { result ≡ Given·has bit bits }
{
    bits & bit != 0
}

fn settings_of(bits: u32) -> Settings
    ensures { result ≡ settings_of bits }
{
    Settings {
        container: has(bits, 8),
        auto: has(bits, 16),
        defaulted: has(bits, 32),
        protect: has(bits, 64),
    }
}

fn mapping_of(m: &[u32; 4]) -> Mapping
    ensures { result ≡ mapping_from m.now }
{
    Mapping {
        read: m[0],
        write: m[1],
        execute: m[2],
        all: m[3],
    }
}

// Which identity the bytes are: 0 exactly one SID and no placeholder, 1 creator owner, 2 creator group, 6 not exactly one SID.
pub fn pt_identity(bytes: &[u8]) -> u32
    ensures { result ≡ identity_of bytes.now }
{
    match list::identity(bytes) {
        Ok(None) => 0,
        Ok(Some(Placeholder::Owner)) => 1,
        Ok(Some(Placeholder::Group)) => 2,
        Err(why) => u32::from(why.number()),
    }
}

// Reads a list, with the offset of each entry in the row.
pub fn pt_read(list: &[u8], row: &mut [u16], answer: &mut [u32; 8])
    ensures answer { answer.new ≡ places_of (read_values list.now (length row.old)) }
    ensures index { row.new ≡ row_by (read_of access list.now (length row.old)) list.now row.old }
{
    match list::read(list, row) {
        Ok(read) => put_values(
            answer,
            Values {
                length: u32::from(read.length),
                present: 1,
                count: u32::from(read.count),
                end: u32::from(read.end),
                ..UNTOLD
            },
        ),
        Err(fault) => put_fault(answer, fault),
    }
}

// What a walk has found: the entry's numbers, and the answer.
fn put_found(entry: &mut [u32; 8], answer: &mut [u32; 8], found: Option<Found>)
    requires { Told32 found }
    ensures { (entry.new ≡ found_places found) × (answer.new ≡ places_of (found_values found)) }
{
    match found {
        Some(Found { at, entry: e, next }) => {
            *entry = [
                u32::from(e.kind),
                u32::from(e.flags),
                e.size as u32,
                e.mask,
                e.word,
                e.sid as u32,
                e.sid_len as u32,
                next as u32,
            ];
            put_values(
                answer,
                Values {
                    length: at as u32,
                    present: 1,
                    ..UNTOLD
                },
            );
        }
        None => {
            *entry = [0; 8];
            put_values(answer, UNTOLD);
        }
    }
}

// The first entry that begins at or after a place: a viewer's walk.
pub fn pt_step(list: &[u8], place: u32, entry: &mut [u32; 8], answer: &mut [u32; 8])
    ensures answer { answer.new ≡ places_of (pointed_values (pointed_of list.now place)) }
    ensures entry { entry.new ≡ entry_places (pointed_of list.now place) }
{
    match access::step_from(list, place as usize) {
        Ok(found) => put_found(entry, answer, found),
        Err(fault) => {
            *entry = [0; 8];
            put_fault(answer, fault);
        }
    }
}

// Lays two lists side by side, with the numbers of the removed entries and then of the added ones in the row.
pub fn pt_compare(first: &[u8], second: &[u8], row: &mut [u32], answer: &mut [u32; 8])
    ensures answer { answer.new ≡ places_of (compared_values (compared_of first.now second.now (length row.old))) }
    ensures row { row.new ≡ row_after first.now second.now row.old }
{
    match sidebyside::compare(first, second, row) {
        Ok(compared) => put_values(
            answer,
            Values {
                length: compared.removed,
                present: compared.added,
                count: compared.bits,
                ..UNTOLD
            },
        ),
        Err(fault) => put_fault(answer, fault),
    }
}

// What is told of a person who would open an object.
fn put_access(answer: &mut [u32; 8], access: Result<bool, Fault>)
    ensures { answer.new ≡ places_of (access_values access) }
{
    match access {
        Ok(yes) => put_values(
            answer,
            Values {
                length: u32::from(yes),
                ..UNTOLD
            },
        ),
        Err(fault) => put_fault(answer, fault),
    }
}

// Whether a person may open an object: the SIDs held, laid end to end, and the wanted mask.
pub fn pt_may_open(
    given: u32,
    list: &[u8],
    kind: &[u8; 16],
    held: &[u8],
    wanted: u32,
    answer: &mut [u32; 8],
)
    ensures { answer.new ≡ places_of (access_values (may_open_of (question_by (yes_of given) list.now kind.now held.now wanted []))) }
{
    put_access(
        answer,
        access::may_open((given != 0).then_some(list), *kind, held, wanted),
    );
}

// The same, with a table of the names that conditions may ask for.
pub fn pt_may_open_with(
    given: u32,
    list: &[u8],
    kind: &[u8; 16],
    held: &[u8],
    wanted: u32,
    table: &[u8],
    answer: &mut [u32; 8],
)
    ensures { answer.new ≡ places_of (access_values (may_open_of (question_by (yes_of given) list.now kind.now held.now wanted table.now))) }
{
    put_access(
        answer,
        access::may_open_with((given != 0).then_some(list), *kind, held, wanted, table),
    );
}

// What an expression says: 0 false, 1 true, 2 unknown.
fn truth_number(truth: Truth) -> u32
    ensures { result ≡ truth_number truth }
{
    match truth {
        Truth::False => 0,
        Truth::True => 1,
        Truth::Unknown => 2,
    }
}

// What a conditional expression in its stored form says under a table of names.
pub fn pt_evaluate(expression: &[u8], table: &[u8], answer: &mut [u32; 8])
    ensures { answer.new ≡ places_of (evaluated_values (evaluate_of expression.now table.now)) }
{
    match condition::evaluate(expression, table) {
        Ok(truth) => put_values(
            answer,
            Values {
                length: truth_number(truth),
                ..UNTOLD
            },
        ),
        Err(why) => put_fault(answer, why.into()),
    }
}

// The stored form of a condition typed as text, on the front of `out`.
pub fn pt_condition(text: &[u8], out: &mut [u8], answer: &mut [u32; 8])
    ensures answer_after { answer.new ≡ places_of (translated_values (translation_of text.now (length out.old))) }
    ensures out { out.new ≡ out_after text.now out.old }
{
    match wording::translate(text, out) {
        Ok(stored) => put_values(
            answer,
            Values {
                length: stored.size as u32,
                present: 1,
                count: stored.tokens as u32,
                ..UNTOLD
            },
        ),
        Err(fault) => put_fault(answer, Fault::at(fault.why, fault.at as u16)),
    }
}

// The list of a new object. Settings: 1 parent present, 2 creator present, 4 default present, 8 container,
// 16 auto inherit, 32 default descriptor, 64 protected. Mapping: read, write, execute, all.
pub fn pt_compute(
    rule: u32,
    settings: u32,
    mapping: &[u32; 4],
    parent: &[u8],
    creator: &[u8],
    default: &[u8],
    types: &[u8],
    owner: &[u8],
    group: &[u8],
    out: &mut [u8],
    answer: &mut [u32; 8],
)
    ensures { Computes (computing rule settings mapping.now parent.now creator.now default.now types.now owner.now group.now) out.old answer.new out.new }
{
    let m = mapping_of(mapping);
    match inherit::compute(
        rule,
        settings_of(settings),
        m,
        has(settings, 1).then_some(parent),
        has(settings, 2).then_some(creator),
        has(settings, 4).then_some(default),
        types,
        owner,
        group,
        out,
    ) {
        Ok(Some(computed)) => put_values(
            answer,
            Values {
                length: u32::from(computed.length),
                present: 1,
                count: u32::from(computed.count),
                control: u32::from(computed.control),
                ..UNTOLD
            },
        ),
        Ok(None) => put_values(answer, UNTOLD),
        Err(fault) => put_fault(answer, fault),
    }
}

// The answer of a tree's call, in its places.
fn put_answer(answer: &mut [u32; 8], told: Result<Done, Fault>)
    ensures { answer.new ≡ places_of (Calls·values_of told) }
{
    match told {
        Ok(done) => put_values(
            answer,
            Values {
                length: u32::from(done.length),
                present: u32::from(done.present),
                count: u32::from(done.count),
                ..UNTOLD
            },
        ),
        Err(fault) => put_fault(answer, fault),
    }
}

// Bytes of room that a tree needs; 0 where a limit is out of range.
pub fn pt_room(objects: u32, steps: u32) -> usize
    ensures { result ≡ room_of objects steps }
{
    tree::room(objects, steps).unwrap_or(0)
}

// Starts a tree in a lent room.
pub fn pt_start(
    room: &mut [u8],
    objects: u32,
    steps: u32,
    rule: u32,
    mapping: &[u32; 4],
    given: u32,
    default: &[u8],
    answer: &mut [u32; 8],
)
    ensures answer { answer.new ≡ places_of (Calls·values_of (start_to (record { object-limit = objects; step-limit = steps; rule = rule; mapping = mapping_from mapping.now; default = lent (yes_of given) default.now }) room.old).answer) }
    ensures room { room.new ≡ (start_to (record { object-limit = objects; step-limit = steps; rule = rule; mapping = mapping_from mapping.now; default = lent (yes_of given) default.now }) room.old).bytes }
{
    let m = mapping_of(mapping);
    let default = (given != 0).then_some(default);
    put_answer(answer, tree::start(room, objects, steps, rule, m, default));
}

// Adds an object. Parent: 0xFFFFFFFF for none. Traits: 1 container, 2 protected mark, 4 an own list is given.
pub fn pt_add(
    room: &mut [u8],
    parent: u32,
    traits: u32,
    kind: &[u8; 16],
    owner: &[u8],
    group: &[u8],
    list: &[u8],
    answer: &mut [u32; 8],
)
    ensures answer { answer.new ≡ places_of (Calls·values_of (add_to (object_for (new_of parent traits kind.now owner.now group.now list.now)) room.old).answer) }
    ensures room { room.new ≡ (add_to (object_for (new_of parent traits kind.now owner.now group.now list.now)) room.old).bytes }
{
    put_answer(
        answer,
        tree::add(
            room,
            parent,
            has(traits, 1),
            has(traits, 2),
            *kind,
            owner,
            group,
            has(traits, 4).then_some(list),
        ),
    );
}

// Sets an object's own list, or removes it.
pub fn pt_set_list(room: &mut [u8], object: u32, given: u32, list: &[u8], answer: &mut [u32; 8])
    ensures answer { answer.new ≡ places_of (Calls·values_of (alter_to object (Edit·list (lent (yes_of given) list.now)) room.old).answer) }
    ensures room { room.new ≡ (alter_to object (Edit·list (lent (yes_of given) list.now)) room.old).bytes }
{
    put_answer(
        answer,
        tree::set_list(room, object, (given != 0).then_some(list)),
    );
}

// Sets an object's protected mark.
pub fn pt_set_mark(room: &mut [u8], object: u32, mark: u32, answer: &mut [u32; 8])
    ensures answer { answer.new ≡ places_of (Calls·values_of (alter_to object (Edit·mark (yes_of mark)) room.old).answer) }
    ensures room { room.new ≡ (alter_to object (Edit·mark (yes_of mark)) room.old).bytes }
{
    put_answer(answer, tree::set_mark(room, object, mark != 0));
}

// Sets an object's owner and group.
pub fn pt_set_owner(room: &mut [u8], object: u32, owner: &[u8], group: &[u8], answer: &mut [u32; 8])
    ensures answer { answer.new ≡ places_of (Calls·values_of (alter_to object (Edit·owners owner.now group.now) room.old).answer) }
    ensures room { room.new ≡ (alter_to object (Edit·owners owner.now group.now) room.old).bytes }
{
    put_answer(answer, tree::set_owner(room, object, owner, group));
}

// Takes off the latest change not yet undone.
pub fn pt_undo(room: &mut [u8], answer: &mut [u32; 8])
    ensures answer { answer.new ≡ places_of (Calls·values_of (undo_to room.old).answer) }
    ensures room { room.new ≡ (undo_to room.old).bytes }
{
    put_answer(answer, tree::undo(room));
}

// An object's computed list.
pub fn pt_list(room: &[u8], object: u32, out: &mut [u8], answer: &mut [u32; 8])
    ensures answer { answer.new ≡ places_of (Calls·values_of (list_to object room.now out.old).answer) }
    ensures result { out.new ≡ (list_to object room.now out.old).bytes }
{
    put_answer(answer, tree::list_of(room, object, out));
}

// An object's own list.
pub fn pt_own(room: &[u8], object: u32, out: &mut [u8], answer: &mut [u32; 8])
    ensures answer { answer.new ≡ places_of (Calls·values_of (own_to object room.now out.old).answer) }
    ensures result { out.new ≡ (own_to object room.now out.old).bytes }
{
    put_answer(answer, tree::own_of(room, object, out));
}

// An object's own data but for its list, as the script's record 1 lays it out.
pub fn pt_data(room: &[u8], object: u32, out: &mut [u8], answer: &mut [u32; 8])
    ensures answer { answer.new ≡ places_of (Calls·values_of (data_to object room.now out.old).answer) }
    ensures result { out.new ≡ (data_to object room.now out.old).bytes }
{
    put_answer(answer, tree::data_of(room, object, out));
}

// How many objects stand and how many steps are kept.
pub fn pt_counts(room: &[u8], answer: &mut [u32; 8])
    ensures { answer.new ≡ places_of (Calls·values_of (counts_to room.now)) }
{
    put_answer(answer, tree::counts(room));
}

// Plays a whole script in a room of its own and writes the program's text.
pub fn pt_play(script: &[u8], out: &mut [u8], answer: &mut [u32; 8])
    ensures { (answer.new ≡ places_of (Calls·values_of (play_to script.now out.old).answer)) × (out.new ≡ (play_to script.now out.old).bytes) }
{
    put_answer(answer, script::play(script, out));
}
