// Cuts a rising list of (code point, glyph) pairs into the segments of a cmap format 4 table, one pair at a time.
#![tactic(auto)]

ghost use Rattle.std.specs.Prelude.{◌≡◌, ◌≤◌};
ghost use Rattle.format4_cutting.specs.Steps.{idle, begun, grown, turned, cost_of, pays, earlier, commit, step, finish};
ghost use Rattle.format4_cutting.specs.Cutting.{pair_delta};

// Code points start to end. A delta of 0 says that the glyphs stand in the glyph array.
#[derive(Clone, Copy)]
pub struct Segment {
    pub start: u16,
    pub end: u16,
    pub delta: u16,
}

// At most two segments, which no type of the library says without a buffer and a count.
#[derive(Clone, Copy)]
pub enum Committed {
    None,
    One(Segment),
    Two(Segment, Segment),
}

// The running range: what of it is not committed yet starts at start.
#[derive(Clone, Copy)]
pub struct RangeState {
    // A range is running.
    running: bool,
    // Its running run is not its first, and there is one before it. Slower with an Option of that run: 9 % more instructions for short runs.
    later: bool,
    // The first code point that is not committed.
    start: u16,
    // The start of the run before the running one.
    prev: u16,
    prevdelta: u16,
    // The running run: its first code point and its delta.
    run: u16,
    delta: u16,
    // The last code point and its glyph.
    end: u16,
    glyph: u16,
}

#[derive(Clone, Copy)]
pub struct Absorbed {
    pub state: RangeState,
    pub out: Committed,
}

#[derive(Clone, Copy)]
pub struct Finished {
    pub out: Committed,
    pub close: bool,
}

// glyph - code point, mod 65,536
fn delta_of(c: u16, g: u16) -> u16
    ensures { result ≡ pair_delta c g }
{
    ((g as u32 + 65536 - c as u32) % 65536) as u16
}

impl RangeState {
    const FIRST_COST: u32 = 8;

    const LATER_COST: u32 = 16;

    pub fn new() -> Self
        ensures { result ≡ idle }
    {
        RangeState {
            running: false,
            later: false,
            start: 0,
            prev: 0,
            prevdelta: 0,
            run: 0,
            delta: 0,
            end: 0,
            glyph: 0,
        }
    }

    // A range that starts at c.
    fn begin(c: u16, g: u16) -> Self
        ensures { result ≡ begun c g }
    {
        RangeState {
            running: true,
            later: false,
            start: c,
            prev: c,
            prevdelta: 0,
            run: c,
            delta: delta_of(c, g),
            end: c,
            glyph: g,
        }
    }

    // The run goes on up to c.
    pub fn grow(mut self, c: u16, g: u16) -> Self
        ensures { result ≡ grown self c g }
    {
        self.end = c;
        self.glyph = g;
        self
    }

    // The range goes on with a new run; start is the first code point that is not committed.
    fn turn(self, start: u16, c: u16, g: u16) -> Self
        ensures { result ≡ turned self start c g }
    {
        RangeState {
            running: true,
            later: true,
            start,
            prev: self.run,
            prevdelta: self.delta,
            run: c,
            delta: delta_of(c, g),
            end: c,
            glyph: g,
        }
    }

    fn cost(self) -> u32
        ensures { result ≡ cost_of self }
    {
        if self.later {
            RangeState::LATER_COST
        } else {
            RangeState::FIRST_COST
        }
    }

    // Twice the running run's length reaches the cost.
    fn run_pays(self, cost: u32) -> bool
        requires { (1 ≤ cost) × (cost ≤ 16) }
        ensures { result ≡ pays self cost }
    {
        cost + 2 * (self.run as u32) <= 2 * (self.end as u32 + 1)
    }

    // The delta of the part before the running run: that of the run before, if the part is that run alone.
    fn earlier_delta(self) -> u16
        ensures { result ≡ (earlier self).delta }
    {
        if self.start == self.prev {
            self.prevdelta
        } else {
            0
        }
    }

    // What is not committed yet, as one or two segments.
    fn commit_current_range(self, cost: u32) -> Committed
        requires { (1 ≤ cost) × (cost ≤ 16) }
        ensures { result ≡ commit self cost }
    {
        if self.start == self.run {
            return Committed::One(Segment {
                start: self.start,
                end: self.end,
                delta: self.delta,
            });
        }
        if self.start < self.run && self.run < self.end && self.run_pays(cost) {
            return Committed::Two(
                Segment {
                    start: self.start,
                    end: self.run - 1,
                    delta: self.earlier_delta(),
                },
                Segment {
                    start: self.run,
                    end: self.end,
                    delta: self.delta,
                },
            );
        }
        Committed::One(Segment {
            start: self.start,
            end: self.end,
            delta: 0,
        })
    }

    // Takes one pair in. What is committed is made in one place, so that the whole is small enough to be compiled into a walk.
    pub fn absorb(self, c: u16, g: u16) -> Absorbed
        ensures { result ≡ step self c g }
    {
        if self.running {
            let mut next = RangeState::begin(c, g);
            let mut cost = RangeState::FIRST_COST;
            if c as u32 == self.end as u32 + 1 {
                if g as u32 == self.glyph as u32 + 1 {
                    return Absorbed {
                        state: self.grow(c, g),
                        out: Committed::None,
                    };
                }
                cost = self.cost();
                if self.run_pays(cost) {
                    next = self.turn(c, c, g);
                } else {
                    return Absorbed {
                        state: self.turn(self.start, c, g),
                        out: Committed::None,
                    };
                }
            }
            return Absorbed {
                state: next,
                out: self.commit_current_range(cost),
            };
        }
        Absorbed {
            state: RangeState::begin(c, g),
            out: Committed::None,
        }
    }

    // The end of the pairs: the last range, and whether a closing segment follows.
    pub fn finish(self) -> Finished
        ensures { result ≡ finish self }
    {
        if self.running {
            return Finished {
                out: self.commit_current_range(RangeState::FIRST_COST),
                close: self.end != 65535,
            };
        }
        Finished {
            out: Committed::None,
            close: true,
        }
    }
}
