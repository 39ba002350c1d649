// Writes segments of a format 4 subtable into its columns and its glyph array, each at the writer's next places.
#![tactic(auto)]

ghost use Rattle.std.specs.Prelude.{◌≡◌, ◌+◌, ◌≤◌, ◌<◌, ◌-◌, ◌*◌, ◌∷◌, [], length, take, drop};
ghost use Rattle.format4_columns.specs.Places.{offset_at, places_at, next_of, put_three, put_glyphs, put_one, put_all, moved_by, FarFromEnd, SegmentsRoom};
ghost use Rattle.std.proofs.lemmas.List.Edits.{sets};
ghost use Rattle.number.specs.Row.{encs};
ghost use Rattle.format4_cutting.specs.Steps.{to_list};
ghost use Rattle.format4_cutting.specs.Cutting.{closing};

use format4_cutting::{Committed, Segment};

// Where the next segment's numbers and glyphs go, and which pair is its first.
#[derive(Clone, Copy)]
pub struct RangeWriter {
    pub ends: usize,
    pub starts: usize,
    pub deltas: usize,
    pub offsets: usize,
    pub array: usize,
    pub next: usize,
}

impl RangeWriter {
    // The columns of a subtable of s segments at a place.
    pub fn new(at: usize, s: usize) -> Self
        requires { (at < 9223372036854775808) × (s < 65536) }
        ensures { result ≡ places_at at s }
    {
        RangeWriter {
            ends: at + 14,
            starts: at + 16 + 2 * s,
            deltas: at + 16 + 4 * s,
            offsets: at + 16 + 6 * s,
            array: at + 16 + 8 * s,
            next: 0,
        }
    }

    // The range offset of a segment, from the offset's own place.
    pub fn offset_of(self, x: Segment) -> u32
        requires { (self.offsets ≤ self.array) × (self.array < self.offsets + 65536) }
        ensures { result ≡ offset_at self x }
    {
        if x.delta == 0 {
            return (self.array - self.offsets) as u32;
        }
        0
    }

    fn start_end_delta(self, out: &mut [u8], x: Segment)
        requires { (self.ends + 2 ≤ length out.old) × ((self.starts + 2 ≤ length out.old) × (self.deltas + 2 ≤ length out.old)) }
        ensures { out.new ≡ put_three out.old self x }
    {
        number_writer::put_u16(out, self.ends, u32::from(x.end));
        number_writer::put_u16(out, self.starts, u32::from(x.start));
        number_writer::put_u16(out, self.deltas, u32::from(x.delta));
    }

    fn rangeoffset_glyph_ids(self, out: &mut [u8], glyphs: &[u16], x: Segment)
        requires { SegmentsRoom self (x ∷ []) (length glyphs.now) (length out.old) }
        ensures { out.new ≡ put_glyphs glyphs.now out.old self x }
    {
        let offset = self.offset_of(x);
        let n = format4::entries_of(x);
        number_writer::put_u16(out, self.offsets, offset);
        put_glyphs(out, self.array, glyphs, self.next, n);
    }

    // The places behind a segment's.
    fn after(self, x: Segment) -> Self
        requires { FarFromEnd self }
        ensures { result ≡ next_of self x }
    {
        RangeWriter {
            ends: self.ends + 2,
            starts: self.starts + 2,
            deltas: self.deltas + 2,
            offsets: self.offsets + 2,
            array: self.array + 2 * format4::entries_of(x),
            next: self.next + format4::points_of(x),
        }
    }

    fn write_one_range(self, out: &mut [u8], glyphs: &[u16], x: Segment) -> Self
        requires { SegmentsRoom self (x ∷ []) (length glyphs.now) (length out.old) }
        ensures { (result ≡ next_of self x) × (out.new ≡ put_one glyphs.now out.old self x) }
    {
        self.start_end_delta(out, x);
        self.rangeoffset_glyph_ids(out, glyphs, x);
        self.after(x)
    }

    pub fn absorb(self, out: &mut [u8], glyphs: &[u16], c: Committed) -> Self
        requires { SegmentsRoom self (to_list c) (length glyphs.now) (length out.old) }
        ensures { (result ≡ moved_by self (to_list c)) × (out.new ≡ put_all glyphs.now out.old self (to_list c)) }
    {
        match c {
            Committed::None => self,
            Committed::One(a) => self.write_one_range(out, glyphs, a),
            Committed::Two(a, b) => {
                let w = self.write_one_range(out, glyphs, a);
                w.write_one_range(out, glyphs, b)
            }
        }
    }

    // The closing segment, if there is one.
    pub fn close(self, out: &mut [u8], glyphs: &[u16], close: bool)
        requires { SegmentsRoom self (closing close) (length glyphs.now) (length out.old) }
        ensures { out.new ≡ put_all glyphs.now out.old self (closing close) }
    {
        if close {
            self.write_one_range(
                out,
                glyphs,
                Segment {
                    start: 65535,
                    end: 65535,
                    delta: 1,
                },
            );
        }
    }
}

// n glyphs from the k-th on, two bytes each.
fn put_glyphs(out: &mut [u8], at: usize, glyphs: &[u16], k: usize, n: usize)
    requires { (at + 2 * n ≤ length out.old) × (n ≤ length glyphs.now - k) }
    ensures { out.new ≡ sets out.old at (encs 2 (take n (drop k glyphs.now))) }
{
    for i in 0..n {
        number_writer::put_u16(out, at + 2 * i, u32::from(glyphs[k + i]));
    }
}
