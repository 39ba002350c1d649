// Places in a rising list of points, found by halving: how many points are below one, and whether one is listed.
#![tactic(auto)]

ghost use Rattle.std.specs.Prelude.{◌≡◌, ◌+◌, ◌<◌, ℕ, List, length, slice_index_or, get_or, refl};
ghost use Rattle.std.proofs.Common.{sym};
ghost use Rattle.std.proofs.lemmas.Grind.{get_or_default_zero};
ghost use Rattle.laws.specs.Lists.{Rising};
ghost use Rattle.lists_marks.specs.Marks.{holds, Bound, Halving, AtLeast};

// What a list holds: code points are u32, glyphs u16.
pub trait Unsigned: Copy {
    ghost value: { Self → ℕ };

    ghost values: { List Self → List ℕ };

    fn value(self) -> u64
        ensures { result ≡ value self };

    ghost values_length: { (xs : List Self) → length (values xs) ≡ length xs };

    ghost value_at: { (xs : List Self) (i : ℕ) (d : Self) → i < length xs → get_or (values xs) i 0 ≡ value (slice_index_or xs i d) };
}

// Two impls that are alike, since no macro of this repository may write an impl. `value` is worded in two ways, so that an edit can name each.
impl Unsigned for u32 {
    ghost value = { λ x. x };

    ghost values = { λ xs. xs };

    ghost values_length = { λ xs. refl };

    ghost value_at = { λ xs i d h. sym (get_or_default_zero xs i d h) };

    fn value(self) -> u64 {
        u64::from(self)
    }
}

impl Unsigned for u16 {
    ghost value = { λ x. x };

    ghost values = { λ xs. xs };

    ghost values_length = { λ xs. refl };

    ghost value_at = { λ xs i d h. sym (get_or_default_zero xs i d h) };

    fn value(self) -> u64 {
        self.into()
    }
}

// The bound may be one past the greatest u32. As `partition_point` a search takes a tenth to a quarter longer.
pub fn halve(points: &[u32], c: u64, from: usize, upto: usize) -> usize
    requires rising { Rising points.now }
    requires halving { Halving points.now c from upto }
    ensures { Bound points.now c result }
{
    let mut low = from;
    let mut high = upto;
    while low < high {
        let middle = low + (high - low) / 2;
        if u64::from(points[middle]) < c {
            low = middle + 1;
        } else {
            high = middle;
        }
    }
    low
}

fn count_below(points: &[u32], c: u64) -> usize
    requires { Rising points.now }
    ensures { Bound points.now c result }
{
    halve(points, c, 0, points.len())
}

// Looks ahead in steps that double, which no range counts, then halves.
fn count_from(points: &[u32], c: u64, from: usize) -> usize
    requires rising { Rising points.now }
    requires at_least { AtLeast points.now c from }
    ensures { Bound points.now c result }
{
    let mut low = from;
    let mut step = 1;
    while step <= points.len() - low {
        if c <= u64::from(points[low + step - 1]) {
            return halve(points, c, low, low + step - 1);
        }
        low += step;
        step += step;
    }
    halve(points, c, low, points.len())
}

// How many points are below c, found at once where `near` is that count or little less: `near` changes the time alone.
pub fn count_near(points: &[u32], c: u64, near: usize) -> usize
    requires { Rising points.now }
    ensures { Bound points.now c result }
{
    if near == 0 {
        return count_from(points, c, 0);
    }
    if points.len() < near {
        return count_below(points, c);
    }
    if u64::from(points[near - 1]) < c {
        return count_from(points, c, near);
    }
    count_below(points, c)
}

// Whether x is one of the numbers.
pub fn member<T: Unsigned>(xs: &[T], x: T) -> bool
    requires { Rising (T.values xs.now) }
    ensures { result ≡ holds (T.values xs.now) (T.value x) }
{
    xs.binary_search_by_key(&x.value(), |y| y.value()).is_ok()
}
