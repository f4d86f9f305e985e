// Calls that write on the front of lent bytes, and what these hold afterwards.
ghost use Rattle.std.specs.Prelude.{◌<◌};

use std::io::Stdout;
use stored::{end_line, prepare, print_answer, print_hash, print_space};

// Calls with `out` of m bytes, of N at most, and prints the answer and a sum of all of `out`; none where m is over its limit. What is printed of
// a call besides comes last.
pub(crate) fn run_lent<
    const N: usize,
    C: FnOnce(&mut [u8], &mut [u32; 8]),
    P: FnOnce([u32; 8], &[u8]),
>(to: Stdout, kind: u8, m: usize, call: C, print: P) -> Option<()>
    requires small { N < 65536 }
    requires callable { C.IsAlwaysCallable call }
    requires printable { P.IsAlwaysCallable print }
{
    if N < m {
        return None;
    }
    let mut buffer = [0u8; N];
    let out = &mut buffer[..m];
    let mut answer = [0u32; 8];
    prepare(out);
    call(out, &mut answer);
    print_answer(to, kind, answer);
    print_space(to);
    print_hash(to, out);
    end_line(to);
    print(answer, out);
    Some(())
}
