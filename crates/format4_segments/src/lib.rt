// A readable format 4 subtable in its source: its segments, what each says of a code point, and how many are walked.
#![tactic(auto)]

ghost use Rattle.std.specs.Prelude.{◌≡◌, ◌≤◌, ◌<◌};
ghost use Rattle.lists_marks.specs.Marks.{Inside};
ghost use Rattle.source.specs.Room.{Room4};
ghost use Rattle.format4_mapped.specs.Mapped4.{Read4, entry4};

use format4_mapped::SourceSegment;
use source::Segments;

// A readable format 4 subtable, with the source in which it stands.
#[derive(Clone, Copy)]
pub struct Format4<'a> {
    pub source: &'a [u8],
    pub place: Segments,
    pub ghost room: { Room4 source.now place },
}

// Segment `index` of a subtable, as it is read from the four rows.
#[derive(Clone, Copy)]
pub struct Segment4<'a> {
    pub subtable: &'a Format4<'a>,
    pub index: usize,
    pub read: SourceSegment,
    pub ghost within: { index < subtable.now.place.segs },
    pub ghost is_read: { Read4 subtable.now.source.now subtable.now.place.at subtable.now.place.segs index read },
}

impl Format4<'_> {
    ghost use Rattle.laws.specs.Search.{first};
    ghost use Rattle.format4_segments.specs.Asked.{stops_at, IsSegment};

    pub fn segment_at(&self, i: usize) -> Segment4<'_>
        requires { i < self.now.place.segs }
        ensures { IsSegment self.now i result }
    {
        let s = self.source;
        let t = self.place;
        let start = number::u16_at(s, t.at + 16 + 2 * t.segs + 2 * i);
        let end = number::u16_at(s, t.at + 14 + 2 * i);
        let delta = number::u16_at(s, t.at + 16 + 4 * t.segs + 2 * i);
        let offset = number::u16_at(s, t.at + 16 + 6 * t.segs + 2 * i);
        Segment4 {
            subtable: self,
            index: i,
            read: SourceSegment {
                start,
                end,
                delta,
                offset,
            },
        }
    }

    fn entry(&self, place: usize, away: usize) -> u32
        requires { (place < 131072) × (away < 65536) }
        ensures { result ≡ entry4 self.now.source.now self.now.place.at self.now.place.segs self.now.place.len place away }
    {
        let t = self.place;
        if place < t.segs {
            return 0;
        }
        let index = place + away - t.segs;
        if index < (t.len - (16 + 8 * t.segs)) / 2 {
            return number::u16_at(self.source, t.at + 16 + 8 * t.segs + 2 * index);
        }
        0
    }

    // How many segments are walked.
    pub fn walk_end(&self) -> usize
        ensures { (result ≡ first (stops_at self.now) self.now.place.segs 0) × (result ≤ self.now.place.segs) }
    {
        laws::first(self.place.segs, |i| self.segment_at(i).ends_walk())
    }
}

impl Segment4<'_> {
    ghost use Rattle.format4_segments.specs.Asked.{says_of, stops_at};

    // Whether this segment, and all behind it, is not walked.
    pub fn ends_walk(&self) -> bool
        ensures { result ≡ stops_at self.now.subtable.now self.now.index }
    {
        self.read.start == SourceSegment::WALK_END
    }

    // What the segment says of a code point that it holds.
    pub fn maps(&self, c: u32) -> bool
        requires { Inside self.now.read.start self.now.read.end c }
        ensures { result ≡ says_of self.now c }
    {
        let read = self.read;
        if read.offset == 0 {
            return 0 < (c + read.delta) % 65536;
        }
        let place = (read.offset / 2) as usize + self.index;
        let away = (c - read.start) as usize;
        0 < self.subtable.entry(place, away)
    }
}
