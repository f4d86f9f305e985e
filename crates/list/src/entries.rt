// One entry of a list.
ghost use Rattle.std.specs.Prelude.{◌≡◌, ℕ, ◌+◌, ◌≤◌, ◌<◌, length, drop, eqb, IfSome};
ghost use Rattle.list.specs.Identity.{length_of_sid};
ghost use Rattle.list.specs.Good.{Sound};
ghost use Rattle.list.specs.Entry.{access, plain_of, kind_ok, object_kind, conditional_kind, head_of, size_of, word_after, guids_of, entry_of};
ghost use Rattle.condition.specs.Kind.{up_to_four};
ghost use Rattle.list.specs.Inner.Begins.{Begun, tail_check};

use crate::identities::sid_at;
use octets::{half_in, word_in};
use refusal::Refusal;

// The fields of a good entry; `sid` is where its SID begins. Its type is the byte as it lies there (`fields_of`): any may come in, and most have no name.
#[derive(Clone, Copy, Debug, PartialEq, Eq)]
pub struct Entry {
    pub kind: u8,
    pub flags: u8,
    pub size: usize,
    pub mask: u32,
    pub word: u32,
    pub sid: usize,
    pub sid_len: usize,
}

// Whether `kind` is an object type.
#[tactic(auto, unfolding(crate::specs::Entry::object_kind, crate::specs::Entry::object_of))]
pub fn is_object(kind: u8) -> bool
    ensures { result ≡ object_kind kind }
{
    matches!(kind, 5 | 6)
}

// Whether `kind` is a conditional type.
#[tactic(auto, unfolding(crate::specs::Entry::conditional_kind, crate::specs::Entry::conditional_of))]
pub fn is_conditional(kind: u8) -> bool
    ensures { result ≡ conditional_kind kind }
{
    matches!(kind, 9 | 10)
}

// Whether `kind` goes on with a SID.
#[tactic(auto, unfolding(crate::specs::Entry::plain_of, crate::specs::Entry::conditional_kind))]
fn is_plain(kind: u8) -> bool
    ensures { result ≡ plain_of access kind }
{
    kind <= 1 || is_conditional(kind)
}

// Whether a list of revision `rev` may hold an entry of type `kind`.
#[tactic(auto, unfolding(crate::specs::Entry::kind_ok, crate::specs::Entry::object_kind))]
fn kind_ok(kind: u8, rev: u8) -> bool
    ensures { result ≡ kind_ok access kind rev }
{
    is_plain(kind) || rev == 4 && is_object(kind)
}

// How many bytes of an entry of type `kind` stand before its GUIDs.
#[tactic(auto, unfolding(crate::specs::Entry::head_of))]
fn head_len(kind: u8) -> usize
    ensures { result ≡ head_of kind }
{
    if is_object(kind) { 12 } else { 8 }
}

// The object word behind a head of 12 bytes, 0 where the head is shorter.
#[tactic(auto, unfolding(crate::specs::Entry::word_after))]
fn object_word(t: &[u8], head: usize) -> u32
    ensures { result ≡ word_after head t.now }
{
    if head == 12 { word_in(t, 8) } else { 0 }
}

// How many bytes the GUIDs take that an object word announces.
pub(crate) fn guids_len(word: u32) -> usize
    ensures { result ≡ guids_of word }
{
    16 * (word % 2 + word / 2 % 2) as usize
}

// Whether so many bytes of tokens, padded to a multiple of four, are so long.
fn is_padded(tokens: usize, long: usize) -> bool
    requires { tokens ≤ long }
    ensures { result ≡ eqb (up_to_four tokens) long }
{
    long % 4 == 0 && long - tokens < 4
}

// Whether what follows the SID of an entry of type `kind` is as it must be: an expression with its padding, or nothing.
fn check_tail(kind: u8, tail: &[u8]) -> Result<(), Refusal>
    ensures { result ≡ tail_check kind tail.now }
{
    let fits = if is_conditional(kind) {
        is_padded(
            condition::check(tail).ok_or(Refusal::Expression)?,
            tail.len(),
        )
    } else {
        tail.is_empty()
    };
    if fits { Ok(()) } else { Err(Refusal::Size) }
}

// The rest of the check, (d) to (h), of an entry of `size` bytes that passes (a) to (c).
fn body_of(t: &[u8], size: usize) -> Result<Entry, Refusal>
    requires { (4 ≤ length t.now) × (size ≡ size_of t.now) × (size ≤ length t.now) }
    ensures { (rev : ℕ) → Begun access rev t.now → result ≡ entry_of access rev t.now }
{
    let kind = t[0];
    let head = head_len(kind);
    if size < head {
        return Err(Refusal::Size);
    }
    let word = object_word(t, head);
    if 3 < word {
        return Err(Refusal::Bits);
    }
    let sid = head + guids_len(word);
    if size < sid + 8 {
        return Err(Refusal::Size);
    }
    let sid_len = sid_at(t, sid).ok_or(Refusal::Sid)?;
    let tail = t.get(sid + sid_len..size).ok_or(Refusal::Size)?;
    check_tail(kind, tail)?;
    Ok(Entry {
        kind,
        flags: t[1],
        size,
        mask: word_in(t, 4),
        word,
        sid,
        sid_len,
    })
}

// `size`, where the SID at `sid` ends just there.
fn ending(t: &[u8], sid: usize, size: usize) -> Option<usize>
    requires { sid ≤ 44 }
    ensures { IfSome result (λ n. (n ≡ size) × (0 < length_of_sid (drop sid t.now)) × (sid + length_of_sid (drop sid t.now) ≡ size)) }
{
    let sid_len = sid_at(t, sid)?;
    if sid + sid_len == size {
        Some(size)
    } else {
        None
    }
}

// The size of an entry that is good and has no condition; none where the test has to tell. Nearly all entries are such, and whoever goes over a list asks
// this first.
pub(crate) fn quick_size(t: &[u8], rev: u8) -> Option<usize>
    ensures { IfSome result (λ size. (size ≡ size_of t.now) × Sound access rev t.now) }
{
    if t.len() < 16 {
        return None;
    }
    let size = half_in(t, 2) as usize;
    if t.len() < size {
        return None;
    }
    let flags = t[1];
    if 31 < flags {
        return None;
    }
    let kind = t[0];
    if kind <= 1 {
        return ending(t, 8, size);
    }
    if rev != 4 || !is_object(kind) {
        return None;
    }
    let word = word_in(t, 8);
    if 3 < word {
        return None;
    }
    ending(t, 12 + guids_len(word), size)
}

// The entry that `t` begins with, in a list of revision `rev`, or its refusal.
pub fn entry_of(t: &[u8], rev: u8) -> Result<Entry, Refusal>
    ensures { result ≡ entry_of access rev t.now }
{
    if t.len() < 4 {
        return Err(Refusal::Size);
    }
    let size = half_in(t, 2) as usize;
    if t.len() < size {
        return Err(Refusal::Size);
    }
    if !kind_ok(t[0], rev) {
        return Err(Refusal::Kind);
    }
    if 31 < t[1] {
        return Err(Refusal::Bits);
    }
    body_of(t, size)
}
