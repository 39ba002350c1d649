// Which points of a rising list lie in a stretch: by two looks where a walk goes on from the last stretch, else by a search.
#![tactic(auto)]

ghost use Rattle.std.specs.Prelude.{◌≡◌, ◌+◌, ◌≤◌, leb, eqb, length};
ghost use Rattle.laws.specs.Lists.{Rising};
ghost use Rattle.lists_marks.specs.Marks.{below, passed, listed_whole, Bound};

// Whether the first i points are below c.
pub fn reaches(points: &[u32], c: u64, i: usize) -> bool
    requires rising { Rising points.now }
    requires i_in_bounds { i ≤ length points.now }
    ensures { result ≡ leb i (below points.now c) }
{
    i == 0 || u64::from(points[i - 1]) < c
}

// Whether none but the first i points are below c.
pub fn suffices(points: &[u32], c: u64, i: usize) -> bool
    requires rising { Rising points.now }
    requires i_in_bounds { i ≤ length points.now }
    ensures { result ≡ leb (below points.now c) i }
{
    points.len() <= i || c <= u64::from(points[i])
}

// Whether i points are below c: two looks, no search.
fn is_count(points: &[u32], c: u64, i: usize) -> bool
    requires { Rising points.now }
    ensures { result ≡ eqb i (below points.now c) }
{
    if points.len() < i {
        return false;
    }
    reaches(points, c, i) && suffices(points, c, i)
}

// How many points are below c, with no search where `near` is that count.
pub fn count_at(points: &[u32], c: u64, near: usize) -> usize
    requires { Rising points.now }
    ensures { Bound points.now c result }
{
    if is_count(points, c, near) {
        return near;
    }
    lists_marks::count_near(points, c, near)
}

// How many points are at most end, where low are below start, with no search where none or all of start..end are listed.
fn count_upto(points: &[u32], start: u32, end: u32, low: usize) -> usize
    requires rising { Rising points.now }
    requires bound { Bound points.now start low }
    ensures { Bound points.now (end + 1) result }
{
    let past = u64::from(end) + 1;
    if is_count(points, past, low) {
        return low;
    }
    if start <= end {
        let all = low + 1 + (end - start) as usize;
        if is_count(points, past, all) {
            return all;
        }
    }
    lists_marks::count_near(points, past, low)
}

// Whether near points are below start, and no more are at most end: then the stretch holds none of them, as most stretches of a walk do.
pub fn is_passed(points: &[u32], start: u32, end: u32, near: usize) -> bool
    requires { Rising points.now }
    ensures { result ≡ passed points.now start end near }
{
    if points.len() < near {
        return false;
    }
    reaches(points, u64::from(start), near) && suffices(points, u64::from(end) + 1, near)
}

// The places of the points of a stretch: from low on, up to high.
#[derive(Clone, Copy)]
pub struct Span {
    pub low: usize,
    pub high: usize,
}

// Whether start stands at near, and all up to end behind it: two looks at points that rise tell it.
// The tests return one by one: joined by `&&`, each would have to be split again in the proof.
fn is_listed(points: &[u32], start: u32, end: u32, near: usize) -> bool
    ensures { result ≡ listed_whole points.now start end near }
{
    if end < start {
        return false;
    }
    if points.len() <= near {
        return false;
    }
    if points[near] != start {
        return false;
    }
    let more = (end - start) as usize;
    if points.len() - near <= more {
        return false;
    }
    points[near + more] == end
}

// What span_near gives, found by looks and searches.
fn span_search(points: &[u32], start: u32, end: u32, near: usize) -> Span
    requires { Rising points.now }
    ensures bound { Bound points.now start result.low }
    ensures bound_2 { Bound points.now (end + 1) result.high }
{
    let low = count_at(points, u64::from(start), near);
    let high = count_upto(points, start, end, low);
    Span { low, high }
}

// The points from start to end, both included: low are below start, high at most end. Most stretches of a walk are listed whole.
pub fn span_near(points: &[u32], start: u32, end: u32, near: usize) -> Span
    requires { Rising points.now }
    ensures bound { Bound points.now start result.low }
    ensures bound_2 { Bound points.now (end + 1) result.high }
{
    if is_listed(points, start, end, near) {
        let high = near + (end - start) as usize + 1;
        return Span { low: near, high };
    }
    span_search(points, start, end, near)
}
