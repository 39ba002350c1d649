// The records of a new default table, one after the other: where each begins, and how many points may follow its start.
#![tactic(auto)]

ghost use Rattle.std.specs.Prelude.{◌≡◌, ◌+◌, ◌<◌, ◌≤◌, length, eqb};
ghost use Rattle.format14_uvs.specs.Default.{bit_length};
ghost use Rattle.format14_ranges.specs.Stream.{NextFlagged, FlaggedPlace, NextRange, most_of};

// The least b with r below 2^b.
fn bit_length(r: u32) -> u64
    ensures { (result ≡ bit_length r) × (result < 4294967296) }
{
    u64::from(u32::BITS - r.leading_zeros())
}

// Whether c is the point after a record's last.
fn follows(start: u32, additional: u32, c: u32) -> bool
    ensures { result ≡ eqb c (start + additional + 1) }
{
    u64::from(c) == u64::from(start) + u64::from(additional) + 1
}

// The first flagged place from i on, or the number of points. Its clause is of points and flags, which every law of the walk reads, and not of
// a search among numbers.
pub fn next_point(kept: &[u32], flags: &[u8], i: usize) -> usize
    requires { (length kept.now ≤ length flags.now) × (i ≤ length kept.now) }
    ensures { NextFlagged kept.now flags.now i result }
{
    for j in i..kept.len() {
        if flags[j] != 0 {
            return j;
        }
    }
    kept.len()
}

// How many points may follow a record's start: 255 where the table is written in ranges, else none.
pub fn most_additional(r: u32, kept: &[u32]) -> u32
    requires { length kept.now ≤ 131072 }
    ensures { result ≡ most_of r kept.now }
{
    if kept.len() as u64 * bit_length(r) < u64::from(r) {
        return 255;
    }
    0
}

// A record of the new table: the points after its start, and the place of the next record's start.
#[derive(Clone, Copy)]
pub struct UnicodeRange {
    pub additional: u32,
    pub next: usize,
}

// The record that starts at the flagged place i. A `for` cannot jump, and points without a flag are passed over at once.
pub fn next_range(kept: &[u32], flags: &[u8], i: usize, most: u32) -> UnicodeRange
    requires { FlaggedPlace kept.now flags.now i }
    ensures { NextRange most kept.now flags.now i result.additional result.next }
{
    let start = kept[i];
    let mut additional = 0;
    let mut next = next_point(kept, flags, i + 1);
    while next < kept.len() && additional != most && follows(start, additional, kept[next]) {
        additional += 1;
        next = next_point(kept, flags, next + 1);
    }
    UnicodeRange { additional, next }
}
