// The new default table of a selector record: which kept points its ranges cover, how long it is, a checksum, and its bytes. That its table can be read
// and each kept point has a flag is one fact with flags that are changed, so that it stands in the clauses and not in a struct.
#![tactic(auto)]

ghost use Rattle.std.specs.Prelude.{◌≡◌, ◌+◌, ◌<◌, ◌≤◌, length};
ghost use Rattle.std.proofs.lemmas.List.Edits.{sets};
ghost use Rattle.lists_marks.specs.Marks.{between, marked, flagged, Flags};
ghost use Rattle.format14_uvs.specs.Default.{range, covers, covered_by, range_bytes, new_default};
ghost use Rattle.format14_ranges.specs.Stream.{DefaultLent, KeptFlagged, RangeCount, records, most_of};
ghost use Rattle.laws.specs.Select.{flat};
ghost use Rattle.number.specs.BigEndian.{be};
ghost use Rattle.format14_uvs.specs.Checksum.{mixed, checksum};

use lists_places::{MANY, PLACES};

// Sets the flags of the points from start to end, both included, by the places noted; how many points are at most end.
fn mark_points_by(
    flags: &mut [u8],
    kept: &[u32],
    start: u32,
    end: u32,
    places: &[u32],
    near: usize,
) -> usize
    requires flags { Flags kept.now flags.old }
    requires end_bound { end < 4294967295 }
    ensures { flags.new ≡ marked (between start end) kept.now flags.old }
{
    let low = lists_places::count_by(kept, start, places, near);
    let high = lists_places::count_by(kept, end + 1, places, low);
    lists_flags::set_flags(flags, low, high);
    high
}

// Sets the flags of the points that the range at `place` covers, its start and all after it; the number of points up to its end. A walk over
// ranges in order hands that number on as `near`, which changes the time alone, as the places noted do.
fn mark_range(
    flags: &mut [u8],
    s: &[u8],
    place: usize,
    kept: &[u32],
    places: Option<&[u32; PLACES]>,
    near: usize,
) -> usize
    requires place_in_bounds { place + 4 ≤ length s.now }
    requires flags { Flags kept.now flags.old }
    ensures { flags.new ≡ marked (λ c. covers c (range s.now place)) kept.now flags.old }
{
    let start = number::u24_at(s, place);
    let end = start + number::byte_at(s, place + 3);
    match places {
        Some(places) => mark_points_by(flags, kept, start, end, places, near),
        None => lists_flags::mark_points_near(flags, kept, start, end, near),
    }
}

// What cover does, by places noted of the kept points, or with none.
fn cover_by(flags: &mut [u8], s: &[u8], p: usize, kept: &[u32], places: Option<&[u32; PLACES]>)
    requires { DefaultLent s.now p kept.now flags.old }
    ensures { flags.new ≡ sets flags.old 0 (flagged (covered_by s.now p) kept.now) }
{
    lists_flags::clear(flags, kept.len());
    let mut near = 0;
    for i in 0..number::u32_at(s, p) as usize {
        near = mark_range(flags, s, p + 4 + 4 * i, kept, places, near);
    }
}

// Sets each kept point's flag: 1 if some range of the table at p covers it, else 0. Places of the kept points are noted first where the table is large.
pub fn cover(flags: &mut [u8], s: &[u8], p: usize, kept: &[u32])
    requires { DefaultLent s.now p kept.now flags.old }
    ensures { flags.new ≡ sets flags.old 0 (flagged (covered_by s.now p) kept.now) }
{
    if number::u32_at(s, p) as usize >= MANY {
        let mut places = [0u32; PLACES];
        lists_places::note_places(&mut places, kept);
        cover_by(flags, s, p, kept, Some(&places));
        return;
    }
    cover_by(flags, s, p, kept, None)
}

// A checksum with one record more: its start in three bytes, how many points follow in one.
fn mix_range(sum: u64, start: u32, additional: u32) -> u64
    ensures { result ≡ mixed 4 sum (range_bytes (start, additional)) }
{
    let record = u64::from(start) % 16777216 * 256 + u64::from(additional) % 256;
    format14_uvs::mix(sum, record)
}

// How many records there are, and a checksum of them.
#[derive(Clone, Copy)]
struct RecordsMeasure {
    count: usize,
    sum: u64,
}

// Both in one walk. A `for` cannot jump, and the points of a record are passed over at once.
fn measure_ranges(kept: &[u32], flags: &[u8], most: u32) -> RecordsMeasure
    requires { KeptFlagged kept.now flags.now }
    ensures range_count { RangeCount most kept.now flags.now result.count }
    ensures sum_value { result.sum ≡ mixed 4 0 (flat range_bytes (records most kept.now flags.now 0)) }
{
    let mut i = format14_ranges::next_point(kept, flags, 0);
    let mut n = 0;
    let mut sum = 0;
    while i < kept.len() {
        let r = format14_ranges::next_range(kept, flags, i, most);
        sum = mix_range(sum, kept[i], r.additional);
        i = r.next;
        n += 1;
    }
    RecordsMeasure { count: n, sum }
}

// Writes one record.
fn copy_range(out: &mut [u8], to: usize, start: u32, additional: u32)
    requires { to + 4 ≤ length out.old }
    ensures { out.new ≡ sets out.old to (range_bytes (start, additional)) }
{
    number_writer::put_u24(out, to, start);
    out[to + 3] = (additional % 256) as u8;
}

// Writes every record; how many. A `for` cannot jump, as above.
fn copy_ranges(out: &mut [u8], to: usize, kept: &[u32], flags: &[u8], most: u32) -> usize
    requires kept_flagged { KeptFlagged kept.now flags.now }
    requires room { to + length (flat range_bytes (records most kept.now flags.now 0)) ≤ length out.old }
    ensures range_count { RangeCount most kept.now flags.now result }
    ensures out_after { out.new ≡ sets out.old to (flat range_bytes (records most kept.now flags.now 0)) }
{
    let mut i = format14_ranges::next_point(kept, flags, 0);
    let mut n = 0;
    while i < kept.len() {
        let r = format14_ranges::next_range(kept, flags, i, most);
        copy_range(out, to + 4 * n, kept[i], r.additional);
        i = r.next;
        n += 1;
    }
    n
}

// Flags the covered points, and tells how many may follow a record's start.
pub fn prepare(flags: &mut [u8], s: &[u8], p: usize, kept: &[u32]) -> u32
    requires { DefaultLent s.now p kept.now flags.old }
    ensures value { result ≡ most_of (be 4 s.now p) kept.now }
    ensures flags_after { flags.new ≡ sets flags.old 0 (flagged (covered_by s.now p) kept.now) }
{
    cover(flags, s, p, kept);
    format14_ranges::most_additional(number::u32_at(s, p), kept)
}

// How long a new table is, 0 where there is none, and a checksum of its bytes.
#[derive(Clone, Copy)]
pub struct DefaultMeasure {
    pub size: usize,
    pub sum: u64,
}

pub fn measure_default(s: &[u8], p: usize, kept: &[u32], flags: &mut [u8]) -> DefaultMeasure
    requires { DefaultLent s.now p kept.now flags.old }
    ensures size_value { result.size ≡ length (new_default s.now p kept.now) }
    ensures sum_value { result.sum ≡ checksum 4 (new_default s.now p kept.now) }
    ensures flags_after { flags.new ≡ sets flags.old 0 (flagged (covered_by s.now p) kept.now) }
{
    let most = prepare(flags, s, p, kept);
    let ranges = measure_ranges(kept, flags, most);
    let size = if ranges.count == 0 {
        0
    } else {
        4 + 4 * ranges.count
    };
    DefaultMeasure {
        size,
        sum: ranges.sum,
    }
}

// Writes the new table, its count after its records; nothing where there is none.
pub fn copy_default_uvs(
    out: &mut [u8],
    to: usize,
    s: &[u8],
    p: usize,
    kept: &[u32],
    flags: &mut [u8],
)
    requires default_lent { DefaultLent s.now p kept.now flags.old }
    requires room { to + length (new_default s.now p kept.now) ≤ length out.old }
    ensures out_after { out.new ≡ sets out.old to (new_default s.now p kept.now) }
    ensures flags_after { flags.new ≡ sets flags.old 0 (flagged (covered_by s.now p) kept.now) }
{
    let most = prepare(flags, s, p, kept);
    if out.len() - to < 4 {
        return;
    }
    let n = copy_ranges(out, to + 4, kept, flags, most);
    if n == 0 {
        return;
    }
    number_writer::put_u32(out, to, n as u32);
}
