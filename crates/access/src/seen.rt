// An entry of a list that was tested, with what a look at it gives.
ghost use Rattle.std.specs.Prelude.{◌≡◌, ◌≤◌, length};
ghost use Rattle.list.specs.Entry.{size_of, sid_len_of, sid_end};
ghost use Rattle.list.specs.Look.{look_of};

use list::Look;

// The bytes that it begins; its SID lies in it, and it lies in them.
#[derive(Clone, Copy)]
pub(crate) struct Seen<'a> {
    pub bytes: &'a [u8],
    pub look: Look,
    pub ghost is: { look ≡ look_of bytes.now },
    pub ghost inside: { sid_end bytes.now ≤ size_of bytes.now },
    pub ghost whole: { size_of bytes.now ≤ length bytes.now },
    pub ghost eight: { 8 ≤ sid_len_of bytes.now },
}
