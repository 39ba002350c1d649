// The groups of a cmap format 12 subtable, one run of the listed pairs each: how many there are, and how long they make the subtable.
#![tactic(auto)]

ghost use Rattle.std.specs.Prelude.{◌≡◌, length};
ghost use Rattle.laws.specs.Lists.{pairs};
ghost use Rattle.format12.specs.Format12.{groups, size_of12, Columns};

// Code points start to end; the first has this glyph, each next one the next.
#[derive(Clone, Copy)]
pub struct Group {
    pub start: u32,
    pub end: u32,
    pub glyph: u16,
}

#[derive(Clone, Copy)]
pub struct Size12 {
    pub groups: usize,
    pub bytes: usize,
}

// How many groups the pairs make.
fn count_groups(codes: &[u32], glyphs: &[u16]) -> usize
    requires { Columns codes.now glyphs.now }
    ensures { result ≡ length (groups (pairs codes.now glyphs.now)) }
{
    let mut n = 0;
    let mut i = 0;
    // A `for` cannot jump: a run is passed over at once.
    while i < codes.len() {
        i = lists_runs::run_end(codes, glyphs, i);
        n += 1;
    }
    n
}

// How many groups the pairs make, and how long their subtable is.
pub fn format12_size(codes: &[u32], glyphs: &[u16]) -> Size12
    requires { Columns codes.now glyphs.now }
    ensures { result ≡ size_of12 (pairs codes.now glyphs.now) }
{
    let groups = count_groups(codes, glyphs);
    Size12 {
        groups,
        bytes: 16 + 12 * groups,
    }
}
