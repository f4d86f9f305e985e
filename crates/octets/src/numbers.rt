// Little-endian numbers, bytes compared, and bytes put on the front of a buffer.
ghost use Rattle.std.specs.Prelude.{◌≡◌, ◌+◌, ◌≤◌, length, get_or, drop, leb};
ghost use Rattle.octets.specs.Bytes.{le, same_bytes, part, put_on};

// As much of `from` as there is room for, on the front of `to`. One by one, of which a memcpy is made: std's `copy_from_slice` takes memmove, and the C
// library needs memcpy and memset alone (include/pipeteasel.h, tools/archive).
pub fn put(to: &mut [u8], from: &[u8])
    ensures { to.new ≡ put_on from.now to.old }
{
    let n = from.len().min(to.len());
    for i in 0..n {
        to[i] = from[i];
    }
}

// The byte at `at`, 0 where there is none.
pub fn byte_in(s: &[u8], at: usize) -> u8
    ensures { result ≡ get_or s.now at 0 }
{
    s.get(at).copied().unwrap_or(0)
}

// Whether the n bytes at `at` are all there: the last place where they could begin is found first, which in a loop over one slice is done once.
fn holds(s: &[u8], at: usize, n: usize) -> bool
    ensures { result ≡ leb (at + n) (length s.now) }
{
    n <= s.len() && at <= s.len() - n
}

// The 32-bit number at `at`, of bytes that are all there.
fn word_at(s: &[u8], at: usize) -> u32
    requires { at + 4 ≤ length s.now }
    ensures { result ≡ le 4 (drop at s.now) }
{
    u32::from_le_bytes([s[at], s[at + 1], s[at + 2], s[at + 3]])
}

// The 16-bit number at `at`; bytes that are not there count as 0. It and `word_in` differ in what is left where bytes are missing, so one for both is no plainer.
pub fn half_in(s: &[u8], at: usize) -> u16
    ensures { result ≡ le 2 (drop at s.now) }
{
    if holds(s, at, 2) {
        return u16::from_le_bytes([s[at], s[at + 1]]);
    }
    u16::from(byte_in(s, at))
}

// The 32-bit number at `at`; bytes that are not there count as 0.
pub fn word_in(s: &[u8], at: usize) -> u32
    ensures { result ≡ le 4 (drop at s.now) }
{
    if holds(s, at, 4) {
        return word_at(s, at);
    }
    if at < s.len() {
        return u32::from(half_in(s, at)) + 65536 * u32::from(byte_in(s, at + 2));
    }
    0
}

// Whether the bytes from `at` on are the same: what `same_bytes` has left, three at most, for which a call of std's test is too much.
fn same_rest(a: &[u8], b: &[u8], at: usize) -> bool
    requires { (at ≤ length a.now) × (length a.now ≡ length b.now) }
    ensures { result ≡ same_bytes (drop at a.now) (drop at b.now) }
{
    for i in at..a.len() {
        if a[i] != b[i] {
            return false;
        }
    }
    true
}

// Whether the bytes are the same: by words, then what is left. By std's test of two slices a computation of sixteen entries takes two thirds more
// instructions (docs/BENCH.md has the row), since it compares twelve bytes for each.
pub fn same_bytes(a: &[u8], b: &[u8]) -> bool
    ensures { result ≡ same_bytes a.now b.now }
{
    if a.len() != b.len() {
        return false;
    }
    let mut at = 0;
    while 4 <= a.len() - at {
        if word_at(a, at) != word_at(b, at) {
            return false;
        }
        at += 4;
    }
    same_rest(a, b, at)
}

// The n bytes at `at`, or as many of them as there are.
pub fn part_of(s: &[u8], at: usize, n: usize) -> &[u8]
    ensures { result.now ≡ part at n s.now }
{
    let from = at.min(s.len());
    &s[from..from + n.min(s.len() - from)]
}
