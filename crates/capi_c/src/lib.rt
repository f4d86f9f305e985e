// The C library (include/pipeteasel.h): an export for each public call of capi, which it calls, with that call's clauses, and nothing else.
#![tactic(auto)]

ghost use Rattle.std.specs.Prelude.{◌≡◌, [], length};
ghost use Rattle.condition.specs.Meaning.{evaluate_of};
ghost use Rattle.wording.specs.Translation.{translation_of, out_after};
ghost use Rattle.list.specs.Identity.{identity_of};
ghost use Rattle.list.specs.Entry.{access};
ghost use Rattle.list.specs.List.{read_of, row_by, lent};
ghost use Rattle.list.specs.Answer.{read_values};
ghost use Rattle.access.specs.Open.{may_open_of, access_values, question_by};
ghost use Rattle.access.specs.Walk.{pointed_values, pointed_of};
ghost use Rattle.sidebyside.specs.Compare.{compared_of, compared_values, row_after};
ghost use Rattle.tree.specs.Room.{room_of};
ghost use Rattle.tree.specs.Calls.{list as Edit·list, mark as Edit·mark, owners as Edit·owners, answer_values as Calls·values_of, object_for, start_to, add_to, alter_to, undo_to, list_to, own_to, data_to, counts_to};
ghost use Rattle.script.specs.Play.{play_to};
ghost use Rattle.capi.specs.Places.{places_of, evaluated_values, translated_values, mapping_from, yes_of, new_of, computing, Computes, entry_places};

// Which identity the bytes are: 0 exactly one SID and no placeholder, 1 creator owner, 2 creator group, 6 not exactly one SID.
#[unsafe(no_mangle)]
pub extern "C" fn pt_identity(bytes: &[u8]) -> u32
    ensures { result ≡ identity_of bytes.now }
{
    capi::pt_identity(bytes)
}

// Reads a list, with the offset of each entry in the row.
#[unsafe(no_mangle)]
pub extern "C" fn pt_read(list: &[u8], row: &mut [u16], answer: &mut [u32; 8])
    ensures answer { answer.new ≡ places_of (read_values list.now (length row.old)) }
    ensures index { row.new ≡ row_by (read_of access list.now (length row.old)) list.now row.old }
{
    capi::pt_read(list, row, answer);
}

// The first entry that begins at or after a place: a viewer's walk.
#[unsafe(no_mangle)]
pub extern "C" fn pt_step(list: &[u8], place: u32, entry: &mut [u32; 8], answer: &mut [u32; 8])
    ensures answer { answer.new ≡ places_of (pointed_values (pointed_of list.now place)) }
    ensures entry { entry.new ≡ entry_places (pointed_of list.now place) }
{
    capi::pt_step(list, place, entry, answer);
}

// Lays two lists side by side, with the numbers of the removed entries and then of the added ones in the row.
#[unsafe(no_mangle)]
pub extern "C" fn pt_compare(first: &[u8], second: &[u8], row: &mut [u32], answer: &mut [u32; 8])
    ensures answer { answer.new ≡ places_of (compared_values (compared_of first.now second.now (length row.old))) }
    ensures row { row.new ≡ row_after first.now second.now row.old }
{
    capi::pt_compare(first, second, row, answer);
}

// Whether a person may open an object: the SIDs held, laid end to end, and the wanted mask.
#[unsafe(no_mangle)]
pub extern "C" fn pt_may_open(
    given: u32,
    list: &[u8],
    kind: &[u8; 16],
    held: &[u8],
    wanted: u32,
    answer: &mut [u32; 8],
)
    ensures { answer.new ≡ places_of (access_values (may_open_of (question_by (yes_of given) list.now kind.now held.now wanted []))) }
{
    capi::pt_may_open(given, list, kind, held, wanted, answer);
}

// The same, with a table of the names that conditions may ask for.
#[unsafe(no_mangle)]
pub extern "C" fn pt_may_open_with(
    given: u32,
    list: &[u8],
    kind: &[u8; 16],
    held: &[u8],
    wanted: u32,
    table: &[u8],
    answer: &mut [u32; 8],
)
    ensures { answer.new ≡ places_of (access_values (may_open_of (question_by (yes_of given) list.now kind.now held.now wanted table.now))) }
{
    capi::pt_may_open_with(given, list, kind, held, wanted, table, answer);
}

// What a conditional expression in its stored form says under a table of names.
#[unsafe(no_mangle)]
pub extern "C" fn pt_evaluate(expression: &[u8], table: &[u8], answer: &mut [u32; 8])
    ensures { answer.new ≡ places_of (evaluated_values (evaluate_of expression.now table.now)) }
{
    capi::pt_evaluate(expression, table, answer);
}

// The stored form of a condition typed as text, on the front of `out`.
#[unsafe(no_mangle)]
pub extern "C" fn pt_condition(text: &[u8], out: &mut [u8], answer: &mut [u32; 8])
    ensures answer_after { answer.new ≡ places_of (translated_values (translation_of text.now (length out.old))) }
    ensures out { out.new ≡ out_after text.now out.old }
{
    capi::pt_condition(text, out, answer);
}

// The list of a new object. Settings: 1 parent present, 2 creator present, 4 default present, 8 container,
// 16 auto inherit, 32 default descriptor, 64 protected. Mapping: read, write, execute, all.
#[unsafe(no_mangle)]
pub extern "C" fn pt_compute(
    rule: u32,
    settings: u32,
    mapping: &[u32; 4],
    parent: &[u8],
    creator: &[u8],
    default: &[u8],
    types: &[u8],
    owner: &[u8],
    group: &[u8],
    out: &mut [u8],
    answer: &mut [u32; 8],
)
    ensures { Computes (computing rule settings mapping.now parent.now creator.now default.now types.now owner.now group.now) out.old answer.new out.new }
{
    capi::pt_compute(
        rule, settings, mapping, parent, creator, default, types, owner, group, out, answer,
    );
}

// Bytes of room that a tree needs; 0 where a limit is out of range.
#[unsafe(no_mangle)]
pub extern "C" fn pt_room(objects: u32, steps: u32) -> usize
    ensures { result ≡ room_of objects steps }
{
    capi::pt_room(objects, steps)
}

// Starts a tree in a lent room.
#[unsafe(no_mangle)]
pub extern "C" fn pt_start(
    room: &mut [u8],
    objects: u32,
    steps: u32,
    rule: u32,
    mapping: &[u32; 4],
    given: u32,
    default: &[u8],
    answer: &mut [u32; 8],
)
    ensures answer { answer.new ≡ places_of (Calls·values_of (start_to (record { object-limit = objects; step-limit = steps; rule = rule; mapping = mapping_from mapping.now; default = lent (yes_of given) default.now }) room.old).answer) }
    ensures room { room.new ≡ (start_to (record { object-limit = objects; step-limit = steps; rule = rule; mapping = mapping_from mapping.now; default = lent (yes_of given) default.now }) room.old).bytes }
{
    capi::pt_start(room, objects, steps, rule, mapping, given, default, answer);
}

// Adds an object. Parent: 0xFFFFFFFF for none. Traits: 1 container, 2 protected mark, 4 an own list is given.
#[unsafe(no_mangle)]
pub extern "C" fn pt_add(
    room: &mut [u8],
    parent: u32,
    traits: u32,
    kind: &[u8; 16],
    owner: &[u8],
    group: &[u8],
    list: &[u8],
    answer: &mut [u32; 8],
)
    ensures answer { answer.new ≡ places_of (Calls·values_of (add_to (object_for (new_of parent traits kind.now owner.now group.now list.now)) room.old).answer) }
    ensures room { room.new ≡ (add_to (object_for (new_of parent traits kind.now owner.now group.now list.now)) room.old).bytes }
{
    capi::pt_add(room, parent, traits, kind, owner, group, list, answer);
}

// Sets an object's own list, or removes it.
#[unsafe(no_mangle)]
pub extern "C" fn pt_set_list(
    room: &mut [u8],
    object: u32,
    given: u32,
    list: &[u8],
    answer: &mut [u32; 8],
)
    ensures answer { answer.new ≡ places_of (Calls·values_of (alter_to object (Edit·list (lent (yes_of given) list.now)) room.old).answer) }
    ensures room { room.new ≡ (alter_to object (Edit·list (lent (yes_of given) list.now)) room.old).bytes }
{
    capi::pt_set_list(room, object, given, list, answer);
}

// Sets an object's protected mark.
#[unsafe(no_mangle)]
pub extern "C" fn pt_set_mark(room: &mut [u8], object: u32, mark: u32, answer: &mut [u32; 8])
    ensures answer { answer.new ≡ places_of (Calls·values_of (alter_to object (Edit·mark (yes_of mark)) room.old).answer) }
    ensures room { room.new ≡ (alter_to object (Edit·mark (yes_of mark)) room.old).bytes }
{
    capi::pt_set_mark(room, object, mark, answer);
}

// Sets an object's owner and group.
#[unsafe(no_mangle)]
pub extern "C" fn pt_set_owner(
    room: &mut [u8],
    object: u32,
    owner: &[u8],
    group: &[u8],
    answer: &mut [u32; 8],
)
    ensures answer { answer.new ≡ places_of (Calls·values_of (alter_to object (Edit·owners owner.now group.now) room.old).answer) }
    ensures room { room.new ≡ (alter_to object (Edit·owners owner.now group.now) room.old).bytes }
{
    capi::pt_set_owner(room, object, owner, group, answer);
}

// Takes off the latest change not yet undone.
#[unsafe(no_mangle)]
pub extern "C" fn pt_undo(room: &mut [u8], answer: &mut [u32; 8])
    ensures answer { answer.new ≡ places_of (Calls·values_of (undo_to room.old).answer) }
    ensures room { room.new ≡ (undo_to room.old).bytes }
{
    capi::pt_undo(room, answer);
}

// An object's computed list.
#[unsafe(no_mangle)]
pub extern "C" fn pt_list(room: &[u8], object: u32, out: &mut [u8], answer: &mut [u32; 8])
    ensures answer { answer.new ≡ places_of (Calls·values_of (list_to object room.now out.old).answer) }
    ensures result { out.new ≡ (list_to object room.now out.old).bytes }
{
    capi::pt_list(room, object, out, answer);
}

// An object's own list.
#[unsafe(no_mangle)]
pub extern "C" fn pt_own(room: &[u8], object: u32, out: &mut [u8], answer: &mut [u32; 8])
    ensures answer { answer.new ≡ places_of (Calls·values_of (own_to object room.now out.old).answer) }
    ensures result { out.new ≡ (own_to object room.now out.old).bytes }
{
    capi::pt_own(room, object, out, answer);
}

// An object's own data but for its list, as the script's record 1 lays it out.
#[unsafe(no_mangle)]
pub extern "C" fn pt_data(room: &[u8], object: u32, out: &mut [u8], answer: &mut [u32; 8])
    ensures answer { answer.new ≡ places_of (Calls·values_of (data_to object room.now out.old).answer) }
    ensures result { out.new ≡ (data_to object room.now out.old).bytes }
{
    capi::pt_data(room, object, out, answer);
}

// How many objects stand and how many steps are kept.
#[unsafe(no_mangle)]
pub extern "C" fn pt_counts(room: &[u8], answer: &mut [u32; 8])
    ensures { answer.new ≡ places_of (Calls·values_of (counts_to room.now)) }
{
    capi::pt_counts(room, answer);
}

// Plays a whole script in a room of its own and writes the program's text.
#[unsafe(no_mangle)]
pub extern "C" fn pt_play(script: &[u8], out: &mut [u8], answer: &mut [u32; 8])
    ensures { (answer.new ≡ places_of (Calls·values_of (play_to script.now out.old).answer)) × (out.new ≡ (play_to script.now out.old).bytes) }
{
    capi::pt_play(script, out, answer);
}
