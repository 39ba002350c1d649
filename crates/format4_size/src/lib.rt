// How many segments and glyphs a format 4 subtable has, and whether its length fits.
#![tactic(auto)]

ghost use Rattle.std.specs.Prelude.{◌≡◌};
ghost use Rattle.laws.specs.Lists.{pairs};
ghost use Rattle.format4.specs.Size.{Columns16, size_of4};
ghost use Rattle.format4.specs.Walk.{CountedPairs};

use format4::{RangeCounter, Size4};
use format4_cutting::RangeState;

// How many segments the pairs are cut into, and how many glyphs their array has.
fn find_segcount(codes: &[u32], glyphs: &[u16]) -> RangeCounter
    requires { Columns16 codes.now glyphs.now }
    ensures { CountedPairs (pairs codes.now glyphs.now) result }
{
    let mut state = RangeState::new();
    let mut n = RangeCounter::new();
    let mut i: usize = 0;
    // A run at a time, for which a `for` cannot jump: growing to its last pair takes in all that go on.
    while i < codes.len() {
        let a = state.absorb(codes[i] as u16, glyphs[i]);
        let begun = a.state;
        n = n.absorb(a.out);
        i = lists_runs::run_end(codes, glyphs, i);
        state = begun.grow(codes[i - 1] as u16, glyphs[i - 1]);
    }
    let f = state.finish();
    n.absorb(f.out).close(f.close)
}

pub fn format4_size(codes: &[u32], glyphs: &[u16]) -> Size4
    requires { Columns16 codes.now glyphs.now }
    ensures { result ≡ size_of4 (pairs codes.now glyphs.now) }
{
    if codes.is_empty() {
        return Size4::Empty;
    }
    let n = find_segcount(codes, glyphs);
    if n.length() <= number::limits::FORMAT4_LENGTH_MAX {
        return Size4::Fits(n);
    }
    Size4::TooLong
}
