// How many points of a rising list are below every 128th number, so that a search among many points, asked for in no order, has few steps to go.
#![tactic(auto)]

ghost use Rattle.std.specs.Prelude.{◌≡◌, ◌≤◌, leb, length};
ghost use Rattle.laws.specs.Choice.{both};
ghost use Rattle.laws.specs.Lists.{Rising};
ghost use Rattle.lists_marks.specs.Marks.{below, Bound};
ghost use Rattle.lists_places.specs.Places.{places_of};

// One place for every 128 code points, and one behind the last.
pub const PLACES: usize = 8705;

// A table of this many records, which may stand in no order, is worth noting places for.
pub const MANY: usize = 32768;

// Notes how many points are below each multiple of 128, from 0 on, as many as there is room for.
pub fn note_places(places: &mut [u32], points: &[u32])
    requires { (length places.old ≤ 8705) × Rising points.now }
    ensures { places.new ≡ places_of points.now (length places.old) }
{
    let mut i = 0;
    for (b, place) in places.iter_mut().enumerate() {
        i = lists_spans::count_at(points, 128 * b as u64, i);
        *place = (i % 4294967296) as u32;
    }
}

// Whether low points at least are below c, and high at most.
fn is_within(points: &[u32], c: u64, low: usize, high: usize) -> bool
    requires rising { Rising points.now }
    requires low_in_bounds { (low ≤ length points.now) × (high ≤ length points.now) }
    ensures { result ≡ both (leb low (below points.now c)) (leb (below points.now c) high) }
{
    lists_spans::reaches(points, c, low) && lists_spans::suffices(points, c, high)
}

// How many points are below c, with few steps where they are low at least and high at most.
fn count_within(points: &[u32], c: u64, low: usize, high: usize) -> usize
    requires { Rising points.now }
    ensures { Bound points.now c result }
{
    if points.len() < low {
        return lists_marks::count_near(points, c, 0);
    }
    if high <= points.len() && is_within(points, c, low, high) {
        return lists_marks::halve(points, c, low, high);
    }
    lists_marks::count_near(points, c, low)
}

// How many points are below c. Places noted of the points, or `near`, the count or little less, shorten the time and change nothing else.
pub fn count_by(points: &[u32], c: u32, places: &[u32], near: usize) -> usize
    requires { Rising points.now }
    ensures { Bound points.now c result }
{
    let b = (c / 128) as usize;
    if places.len() <= b + 1 {
        return lists_marks::count_near(points, u64::from(c), near);
    }
    let low = places[b] as usize;
    let high = places[b + 1] as usize;
    if high == low + 128 {
        return lists_spans::count_at(points, u64::from(c), low + (c % 128) as usize);
    }
    count_within(points, u64::from(c), low, high)
}
