// Which code points a format 12 subtable maps, and those of one group.
#![tactic(auto)]

ghost use Rattle.std.specs.Prelude.{◌≡◌, ◌≤◌, ◌<◌};
ghost use Rattle.number.specs.Limits.{unicode_max};
ghost use Rattle.format12_mapped.specs.Mapped12.{clip12, cut12};

use number::limits::CodePoint;

// Code points from start to end, both included.
#[derive(Clone, Copy)]
pub struct Stretch {
    pub start: u32,
    pub end: u32,
}

fn clip(start: u32, end: u32, glyph: u32, n: u32) -> Option<Stretch>
    requires { (end ≤ unicode_max) × (n < 65536) }
    ensures { result ≡ clip12 start end glyph n }
{
    if end < start {
        return None;
    }
    if n <= glyph {
        return None;
    }
    let end = if glyph + end - start < n {
        end
    } else {
        CodePoint::UNICODE_MAX.min(start + n - glyph)
    };
    Some(Stretch { start, end })
}

// The code points that a group maps, if there are any: one that starts with glyph 0 has its first passed over.
pub fn cut(start: u32, end: u32, glyph: u32, n: u32) -> Option<Stretch>
    requires { n < 65536 }
    ensures { result ≡ cut12 start end glyph n }
{
    let last = end.min(CodePoint::UNICODE_MAX);
    if last < start {
        return None;
    }
    let passed = u32::from(glyph == 0);
    clip(start + passed, last, glyph + passed, n)
}
