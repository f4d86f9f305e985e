// The walker: a lent list itself and a place in it. Thin functions over the stepping function, which takes a slice and a number: no methods, since `make`,
// `step`, `past` and `first` are public and stay by these names.
ghost use Rattle.std.specs.Prelude.{◌≡◌};
ghost use Rattle.access.specs.Walk.{walked_of, step_at, next_at};

use crate::steps::{Found, next_at, step_at, walked};

// The list up to where its entries end, and where the next entry begins.
#[derive(Clone, Copy)]
pub struct Walker<'a> {
    pub list: &'a [u8],
    pub at: usize,
}

// At the first entry of a list that reads as done; over nothing where it doesn't.
pub fn make<'a>(list: &'a [u8]) -> Walker<'a>
    ensures { (result.list.now ≡ walked_of list.now) × (result.at ≡ 8) }
{
    Walker {
        list: walked(list),
        at: 8,
    }
}

// What stands at its place; none at the end.
pub fn step<'a>(w: Walker<'a>) -> Option<Found>
    ensures { result ≡ step_at w.entry.list.now w.entry.at }
{
    step_at(w.list, w.at)
}

// The walker past what stands at its place.
pub fn past<'a>(w: Walker<'a>) -> Walker<'a>
    ensures { (result.list ≡ w.entry.list) × (result.at ≡ next_at w.entry.list.now w.entry.at) }
{
    let n = next_at(w.list, w.at);
    Walker {
        list: w.list,
        at: n,
    }
}

// What a walker finds first, over a plain slice: whoever calls it needs no walk.
pub fn first(list: &[u8]) -> Option<Found>
    ensures { result ≡ step_at (walked_of list.now) 8 }
{
    step(make(list))
}
