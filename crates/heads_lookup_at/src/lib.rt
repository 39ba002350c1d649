// The glyph that the format 4 or format 12 subtable at an offset gives for a code point, read from any bytes: the first segment or group that
// reaches it is asked.
#![tactic(auto)]

ghost use Rattle.std.specs.Prelude.{◌≡◌, ◌≤◌, ◌<◌};
ghost use Rattle.source.specs.Room.{Room4, Room12};
ghost use Rattle.heads_lookup.specs.Lookup.{in_array, in_segment, reaches, find4, find12, lookup4, lookup12};
ghost use Rattle.laws.specs.Search.{first};
ghost use Rattle.source.specs.Fields.{end_code, end_char_code};

use source::{Kind, Segments};

// The array's answer at index `place - t.segs`.
fn in_array(s: &[u8], t: Segments, place: usize, delta: u32) -> Option<u32>
    requires room4 { Room4 s.now t }
    requires delta_bound { delta < 65536 }
    ensures { result ≡ in_array s.now t.at t.segs t.len place delta }
{
    let index = place.checked_sub(t.segs)?;
    if (t.len - (16 + 8 * t.segs)) / 2 <= index {
        return None;
    }
    let entry = number::u16_at(s, t.at + 16 + 8 * t.segs + 2 * index);
    if entry == 0 {
        return Some(0);
    }
    Some((entry + delta) % 65536)
}

// The answer of segment i.
pub fn in_segment(s: &[u8], t: Segments, i: usize, c: u32) -> Option<u32>
    requires room4 { Room4 s.now t }
    requires i_lt_segs { (i < t.segs) × (c ≤ 65535) }
    ensures { result ≡ in_segment s.now t.at t.segs t.len i c }
{
    let start_code = number::u16_at(s, t.at + 16 + 2 * t.segs + 2 * i);
    let id_delta = number::u16_at(s, t.at + 16 + 4 * t.segs + 2 * i);
    let id_range_offset = number::u16_at(s, t.at + 16 + 6 * t.segs + 2 * i);
    if c < start_code {
        return None;
    }
    if id_range_offset == 0 {
        return Some((c + id_delta) % 65536);
    }
    in_array(
        s,
        t,
        (id_range_offset / 2 + (c - start_code)) as usize + i,
        id_delta,
    )
}

// The first segment whose end is at least c; `t.segs` where there is none.
fn first_segment(s: &[u8], t: Segments, c: u32) -> usize
    requires { Room4 s.now t }
    ensures { result ≡ first (reaches (end_code s.now t.at) c) t.segs 0 }
{
    laws::first(t.segs, |i| c <= number::u16_at(s, t.at + 14 + 2 * i))
}

fn find4_in(s: &[u8], t: Segments, c: u32) -> Option<u32>
    requires { Room4 s.now t }
    ensures { result ≡ find4 s.now t.at t.segs t.len c }
{
    if 0xFFFF < c {
        return None;
    }
    let i = first_segment(s, t, c);
    if i < t.segs {
        return in_segment(s, t, i, c);
    }
    None
}

// The first group whose end is at least c; `groups` where there is none. What it shares with `first_segment` is the search; the end stands
// elsewhere, in another width.
fn first_group(s: &[u8], at: usize, groups: usize, c: u32) -> usize
    requires { Room12 s.now at groups }
    ensures { result ≡ first (reaches (end_char_code s.now at) c) groups 0 }
{
    laws::first(groups, |i| c <= number::u32_at(s, at + 20 + 12 * i))
}

fn find12_in(s: &[u8], at: usize, groups: usize, c: u32) -> Option<u32>
    requires { Room12 s.now at groups }
    ensures { result ≡ find12 s.now at groups c }
{
    let i = first_group(s, at, groups, c);
    if i < groups {
        return heads_lookup::in_group(s, at, groups, i, c);
    }
    None
}

// What the subtable at an offset gives for c, if it is a readable format 4.
pub fn lookup4(s: &[u8], at: usize, c: u32) -> Option<u32>
    ensures { result ≡ lookup4 s.now at c }
{
    match source::kind_at(s, at) {
        Kind::Format4 {
            segments,
            length,
            ..
        } => find4_in(
            s,
            Segments {
                at,
                segs: segments,
                len: length,
            },
            c,
        ),
        _ => None,
    }
}

// What the subtable at an offset gives for c, if it is a readable format 12. One function for both formats would hand in the whole match.
pub fn lookup12(s: &[u8], at: usize, c: u32) -> Option<u32>
    ensures { result ≡ lookup12 s.now at c }
{
    match source::kind_at(s, at) {
        Kind::Format12 { groups, .. } => find12_in(s, at, groups, c),
        _ => None,
    }
}
