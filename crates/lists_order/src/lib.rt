// Order and limits of a list: whether a list of code points or of glyphs falls, exceeds a bound, reaches a count, or lacks a point of another.
#![tactic(auto)]

ghost use Rattle.std.specs.Prelude.{◌≡◌, not};
ghost use Rattle.laws.specs.Lists.{Rising};
ghost use Rattle.lists_order.specs.Order.{falls, reaches_count, exceeds, lacks};
ghost use Rattle.lists_marks.specs.Marks.{holds, Bound};

use lists_marks::Unsigned;

// Some number is not below the next.
pub fn falls<T: Unsigned>(xs: &[T]) -> bool
    ensures { result ≡ falls (T.values xs.now) }
{
    laws::some(
        xs.len().saturating_sub(1),
        |i| xs[i + 1].value() <= xs[i].value(),
    )
}

// Some number of a rising list is n or more: its last is the greatest.
pub fn last_reaches(n: usize, xs: &[u16]) -> bool
    requires { Rising xs.now }
    ensures { result ≡ reaches_count n xs.now }
{
    match xs.last() {
        Some(x) => n <= usize::from(*x),
        None => false,
    }
}

// Some number of a rising list is above m.
pub fn last_above(m: u32, xs: &[u32]) -> bool
    requires { Rising xs.now }
    ensures { result ≡ exceeds m xs.now }
{
    match xs.last() {
        Some(x) => m < *x,
        None => false,
    }
}

// Some number is above m.
pub fn exceeds(m: u16, xs: &[u16]) -> bool
    ensures { result ≡ exceeds m xs.now }
{
    laws::some(xs.len(), |i| m < xs[i])
}

// How many kept points are below c, with no search where c stands at `near`.
fn kept_below(kept: &[u32], c: u32, near: usize) -> usize
    requires { Rising kept.now }
    ensures { Bound kept.now c result }
{
    if near < kept.len() && kept[near] == c {
        return near;
    }
    lists_marks::count_near(kept, u64::from(c), near)
}

// Whether c is not the kept point behind the i that are below it.
fn is_missing(kept: &[u32], c: u32, i: usize) -> bool
    requires rising { Rising kept.now }
    requires bound { Bound kept.now c i }
    ensures { result ≡ not (holds kept.now c) }
{
    kept.len() <= i || kept[i] != c
}

// Some listed code point is not kept. Where the code points rise, each is looked for behind the one before.
pub fn lacks(kept: &[u32], codes: &[u32]) -> bool
    requires { Rising kept.now }
    ensures { result ≡ lacks kept.now codes.now }
{
    let mut near = 0;
    for c in codes {
        let place = kept_below(kept, *c, near);
        if is_missing(kept, *c, place) {
            return true;
        }
        near = place + 1;
    }
    false
}
