// Flags beside a rising list of points: cleared, set for a stretch of points, counted, and copied by.
#![tactic(auto)]

ghost use Rattle.std.specs.Prelude.{◌≡◌, ◌+◌, ◌-◌, ◌*◌, ◌/◌, ◌<◌, ◌≤◌, length, replicate};
ghost use Rattle.std.proofs.lemmas.List.Edits.{sets};
ghost use Rattle.laws.specs.Search.{first};
ghost use Rattle.lists_marks.specs.Marks.{between, marked, kept, is_clear, is_set, front_of, Bound, Flags, CopyRoom};

// The end of the block of place i, or high where that comes first. A block is 256 flags.
pub fn block_end(i: usize, high: usize) -> usize
    requires { i < high }
    ensures { (i < result) × (result ≤ 256 * (i / 256) + 256) × (result ≤ high) }
{
    i + (256 - i % 256).min(high - i)
}

// Sets the first n flags to 0.
pub fn clear(flags: &mut [u8], n: usize)
    requires { n ≤ length flags.old }
    ensures { flags.new ≡ sets flags.old 0 (replicate n 0) }
{
    flags[..n].fill(0);
}

// Sets the flags from low on, up to high, to 1. With `fill`, which stores the last flag by itself, a short stretch takes a fifth longer or more.
fn set_all(flags: &mut [u8], low: usize, high: usize)
    requires { high ≤ length flags.old }
    ensures { flags.new ≡ sets flags.old low (replicate (high - low) 1) }
{
    for i in low..high {
        flags[i] = 1;
    }
}

// The same, with no loop for one flag: most stretches of a walk hold one of the points, or none.
pub fn set_flags(flags: &mut [u8], low: usize, high: usize)
    requires { high ≤ length flags.old }
    ensures { flags.new ≡ sets flags.old low (replicate (high - low) 1) }
{
    if high <= low {
        return;
    }
    flags[low] = 1;
    if low + 1 < high {
        set_all(flags, low + 1, high);
    }
}

// Sets the flags of the points from start to end, both included, to 1; how many points are at most end. A walk over stretches
// in order hands that number on as `near`.
pub fn mark_points_near(
    flags: &mut [u8],
    points: &[u32],
    start: u32,
    end: u32,
    near: usize,
) -> usize
    requires { Flags points.now flags.old }
    ensures bound { Bound points.now (end + 1) result }
    ensures flags_after { flags.new ≡ marked (between start end) points.now flags.old }
{
    let span = lists_spans::span_near(points, start, end, near);
    set_flags(flags, span.low, span.high);
    span.high
}

// Copies the pairs whose flag is set to the front of the columns lent for them; how many.
pub fn copy_marked(
    flags: &[u8],
    codes: &[u32],
    glyphs: &[u16],
    tocodes: &mut [u32],
    toglyphs: &mut [u16],
) -> usize
    requires { CopyRoom flags.now codes.now glyphs.now tocodes.old toglyphs.old }
    ensures value { result ≡ length (kept flags.now codes.now) }
    ensures tocodes_after { tocodes.new ≡ sets tocodes.old 0 (kept flags.now codes.now) }
    ensures toglyphs_after { toglyphs.new ≡ sets toglyphs.old 0 (kept flags.now glyphs.now) }
{
    let mut k = 0;
    for i in 0..codes.len() {
        if flags[i] != 0 {
            tocodes[k] = codes[i];
            toglyphs[k] = glyphs[i];
            k += 1;
        }
    }
    k
}

// The first of n flags that is not set; n where all are.
fn first_clear(flags: &[u8], n: usize) -> usize
    requires { n ≤ length flags.now }
    ensures value { result ≡ first (is_clear flags.now) n 0 }
    ensures upper_bound { result ≤ n }
{
    laws::first(n, |i| flags[i] == 0)
}

// The first flag from low on, up to n, that is set; n where none is.
fn first_set(flags: &[u8], low: usize, n: usize) -> usize
    requires low_le_n { low ≤ n }
    requires n_in_bounds { n ≤ length flags.now }
    ensures { result ≡ first (is_set flags.now) (n - low) low }
{
    laws::first_from(low, n, |i| flags[i] != 0)
}

// How many of the first n flags are set, where those are the first ones; else 0. What is kept by such flags need not be copied.
pub fn front(flags: &[u8], n: usize) -> usize
    requires { n ≤ length flags.now }
    ensures value { result ≡ front_of flags.now n }
    ensures upper_bound { result ≤ n }
{
    let m = first_clear(flags, n);
    if first_set(flags, m, n) < n {
        return 0;
    }
    m
}
