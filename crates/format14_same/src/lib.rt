// Whether two new tables of the same sort are equal, found without writing them.
#![tactic(auto)]

ghost use Rattle.std.specs.Prelude.{◌≡◌, ◌+◌, ◌≤◌, length};
ghost use Rattle.laws.specs.Select.{eq_list};
ghost use Rattle.format14_uvs.specs.NonDefault.{mapping, mapping_bytes, new_non_default};
ghost use Rattle.format14_mapping.specs.Lent.{NonDefaultLent};
ghost use Rattle.std.proofs.lemmas.List.Edits.{sets};
ghost use Rattle.lists_marks.specs.Marks.{flagged};
ghost use Rattle.format14_uvs.specs.Default.{covered_by, range_bytes, new_default};
ghost use Rattle.format14_ranges.specs.Stream.{DefaultLent};
ghost use Rattle.format14.specs.Streams.{CodePoints, RangeFits, Flagging, same_ranges};
ghost use Rattle.format14_same.specs.Rows.{same_rows, MappingsLent, NextStaying};

// The number of a mapping, and how many kept points are below the code point of the last one looked up.
#[derive(Clone, Copy)]
struct Stop {
    mapping: usize,
    near: usize,
}

// The first mapping from i on that stays, or the number of mappings. Kept points are looked for from `near` on, which changes the time alone.
fn next_mapping(
    s: &[u8],
    p: usize,
    m: usize,
    kept: &[u32],
    requested: &[u16],
    i: usize,
    near: usize,
) -> Stop
    requires mappings_lent { MappingsLent s.now p m kept.now requested.now }
    requires i_le_m { i ≤ m }
    ensures { NextStaying s.now p m kept.now requested.now i result.mapping }
{
    let mut near = near;
    for j in i..m {
        let found = format14_staying::keeps_mapping(s, p + 4 + 5 * j, kept, requested, near);
        near = found.near;
        if found.stays {
            return Stop { mapping: j, near };
        }
    }
    Stop { mapping: m, near }
}

// Whether two mappings get the same bytes: the same code point, and new glyphs that are the same.
fn same_mapping(s: &[u8], a: usize, b: usize, map: &[u16]) -> bool
    requires { (a + 5 ≤ length s.now) × (b + 5 ≤ length s.now) }
    ensures { result ≡ eq_list (mapping_bytes map.now (mapping s.now a)) (mapping_bytes map.now (mapping s.now b)) }
{
    if number::u24_at(s, a) != number::u24_at(s, b) {
        return false;
    }
    let first = format14_mapping::new_glyph(map, number::u16_at(s, a + 3));
    let second = format14_mapping::new_glyph(map, number::u16_at(s, b + 3));
    first == second
}

// Whether the mappings that stay get the same bytes in both tables. Two tables of one source share the lists, so each is its place and its count beside them.
// A `for` cannot jump, and mappings that do not stay are passed over at once.
fn same_rows(
    s: &[u8],
    p: usize,
    m: usize,
    q: usize,
    n: usize,
    kept: &[u32],
    map: &[u16],
    requested: &[u16],
) -> bool
    requires mappings_lent { MappingsLent s.now p m kept.now requested.now }
    requires mappings_lent_2 { MappingsLent s.now q n kept.now requested.now }
    ensures { result ≡ same_rows s.now kept.now map.now requested.now p m q n }
{
    let mut one = next_mapping(s, p, m, kept, requested, 0, 0);
    let mut other = next_mapping(s, q, n, kept, requested, 0, 0);
    while one.mapping < m {
        if n <= other.mapping {
            return false;
        }
        if !same_mapping(s, p + 4 + 5 * one.mapping, q + 4 + 5 * other.mapping, map) {
            return false;
        }
        one = next_mapping(s, p, m, kept, requested, one.mapping + 1, one.near);
        other = next_mapping(s, q, n, kept, requested, other.mapping + 1, other.near);
    }
    n <= other.mapping
}

// Whether the new non-default tables of those at p and q are equal.
pub fn same_non_default(
    s: &[u8],
    p: usize,
    q: usize,
    kept: &[u32],
    map: &[u16],
    requested: &[u16],
) -> bool
    requires non_default_lent { NonDefaultLent s.now p kept.now requested.now }
    requires non_default_lent_2 { NonDefaultLent s.now q kept.now requested.now }
    ensures { result ≡ eq_list (new_non_default s.now p kept.now map.now requested.now) (new_non_default s.now q kept.now map.now requested.now) }
{
    let m = number::u32_at(s, p) as usize;
    let n = number::u32_at(s, q) as usize;
    same_rows(s, p, m, q, n, kept, map, requested)
}

// Whether two records get the same bytes.
fn same_range(start: u32, additional: u32, other: u32, more: u32) -> bool
    requires range_fits { RangeFits start additional }
    requires range_fits_2 { RangeFits other more }
    ensures { result ≡ eq_list (range_bytes (start, additional)) (range_bytes (other, more)) }
{
    (start, additional) == (other, more)
}

// Whether the records of two flaggings of the points get the same bytes. A `for` cannot jump, and the points of a record are passed over at once.
fn same_ranges(kept: &[u32], first: &[u8], most: u32, second: &[u8], limit: u32) -> bool
    requires flagging { Flagging kept.now first.now most }
    requires flagging_2 { Flagging kept.now second.now limit }
    ensures { result ≡ same_ranges kept.now first.now most second.now limit }
{
    let mut i = format14_ranges::next_point(kept, first, 0);
    let mut j = format14_ranges::next_point(kept, second, 0);
    while i < kept.len() {
        if kept.len() <= j {
            return false;
        }
        let a = format14_ranges::next_range(kept, first, i, most);
        let b = format14_ranges::next_range(kept, second, j, limit);
        if !same_range(kept[i], a.additional, kept[j], b.additional) {
            return false;
        }
        i = a.next;
        j = b.next;
    }
    kept.len() <= j
}

// Whether the new default tables of those at p and q are equal.
pub fn same_default(
    s: &[u8],
    p: usize,
    q: usize,
    kept: &[u32],
    first: &mut [u8],
    second: &mut [u8],
) -> bool
    requires default_lent { DefaultLent s.now p kept.now first.old }
    requires default_lent_2 { DefaultLent s.now q kept.now second.old }
    requires code_points { CodePoints kept.now }
    ensures value { result ≡ eq_list (new_default s.now p kept.now) (new_default s.now q kept.now) }
    ensures first_after { first.new ≡ sets first.old 0 (flagged (covered_by s.now p) kept.now) }
    ensures second_after { second.new ≡ sets second.old 0 (flagged (covered_by s.now q) kept.now) }
{
    let most = format14_default::prepare(first, s, p, kept);
    let limit = format14_default::prepare(second, s, q, kept);
    same_ranges(kept, first, most, second, limit)
}
