// A format 4 subtable as it is defined, and a counter of its segments and glyphs.
#![tactic(auto)]

ghost use Rattle.std.specs.Prelude.{◌≡◌, ◌∷◌, [], ◌≤◌};
ghost use Rattle.format4_cutting.specs.Steps.{to_list};
ghost use Rattle.format4_cutting.specs.Cutting.{closing, entries_of, points};
ghost use Rattle.format4.specs.Size.{counter, length_of4};
ghost use Rattle.format4.specs.Walk.{Below, Adds};

use format4_cutting::{Committed, Segment};

#[derive(Clone, Copy)]
pub struct RangeCounter {
    pub segments: usize,
    pub glyphs: usize,
}

// What becomes of a format 4 subtable, which is one of three; one that fits comes with the counts that its writer needs.
#[derive(Clone, Copy)]
pub enum Size4 {
    Empty,
    TooLong,
    Fits(RangeCounter),
}

// How many code points a segment has.
pub fn points_of(x: Segment) -> usize
    ensures { (result ≡ points x) × (result ≤ 65536) }
{
    (x.end as usize + 1).saturating_sub(x.start as usize)
}

// How many entries of the glyph array it has.
pub fn entries_of(x: Segment) -> usize
    ensures { (result ≡ entries_of x) × (result ≤ 65536) }
{
    if x.delta == 0 {
        return points_of(x);
    }
    0
}

impl RangeCounter {
    // The rules ask for this constructor by its name, where a derive would do.
    pub fn new() -> Self
        ensures { result ≡ counter 0 0 }
    {
        RangeCounter {
            segments: 0,
            glyphs: 0,
        }
    }

    fn write_one_range(self, x: Segment) -> Self
        requires { Below 1000000000000 self }
        ensures { Adds self (x ∷ []) result }
    {
        RangeCounter {
            segments: self.segments + 1,
            glyphs: self.glyphs + entries_of(x),
        }
    }

    pub fn absorb(self, out: Committed) -> Self
        requires { Below 100000000000 self }
        ensures { Adds self (to_list out) result }
    {
        match out {
            Committed::None => self,
            Committed::One(a) => self.write_one_range(a),
            Committed::Two(a, b) => self.write_one_range(a).write_one_range(b),
        }
    }

    // The closing segment, if there is one.
    pub fn close(self, close: bool) -> Self
        requires { Below 100000000000 self }
        ensures { Adds self (closing close) result }
    {
        if close {
            return self.write_one_range(Segment {
                start: 65535,
                end: 65535,
                delta: 1,
            });
        }
        self
    }

    pub fn length(self) -> usize
        requires { Below 1000000000000 self }
        ensures { result ≡ length_of4 self }
    {
        16 + 8 * self.segments + 2 * self.glyphs
    }
}
