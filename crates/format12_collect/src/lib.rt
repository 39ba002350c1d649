// Which of a rising list of code points a format 12 subtable maps, in one walk over its groups. A group sets a stretch of flags; blocks of them
// that are known to be full are passed over.
#![tactic(auto)]

ghost use Rattle.std.specs.Prelude.{◌≡◌, ◌+◌, ◌-◌, ◌*◌, ◌≤◌, ◌<◌, max, length, replicate, get_or, set};
ghost use Rattle.std.proofs.lemmas.List.Edits.{sets};
ghost use Rattle.format12_collect.specs.Blocks.{Ones, Full, Part};
ghost use Rattle.lists_marks.specs.Marks.{flagged, marked, Flags, Cleared};
ghost use Rattle.source.specs.Room.{Room12};
ghost use Rattle.format12_mapped.specs.Mapped12.{group12, stretch_holds, maps12};

use format12_mapped::Stretch;

// A readable format 12 subtable, with the source in which it stands and the count of the font's glyphs.
#[derive(Clone, Copy)]
pub struct Format12<'a> {
    pub source: &'a [u8],
    pub at: usize,
    pub groups: usize,
    pub glyphs: u32,
    pub ghost room: { Room12 source.now at groups },
    pub ghost few_glyphs: { glyphs < 65536 },
}

impl Format12<'_> {
    // The code points that group g maps.
    fn group_at(&self, g: usize) -> Option<Stretch>
        requires { g < self.now.groups }
        ensures { result ≡ group12 self.now.source.now self.now.at self.now.glyphs g }
    {
        let s = self.source;
        let start = number::u32_at(s, self.at + 16 + 12 * g);
        let end = number::u32_at(s, self.at + 20 + 12 * g);
        let glyph = number::u32_at(s, self.at + 24 + 12 * g);
        format12_mapped::cut(start, end, glyph, self.glyphs)
    }
}

// What is full is known in blocks of so many flags,
const BLOCK: usize = 256;

// in so many flags at the front,
const NOTED: usize = 131072;

// and asked for where so many are to be set.
const LONG: usize = 512;

// Sets flags from i on to 1, no further than up to high and to the end of a block, or passes over those before block `noted`, which
// are 1; up to where.
fn set_part(flags: &mut [u8], i: usize, high: usize, noted: u16) -> usize
    requires i_lt_high { (i < high) × (high ≤ length flags.old) }
    requires ones { Ones flags.old i (noted * 256) }
    ensures { Part flags.old flags.new i result high }
{
    let done = noted as usize * BLOCK;
    if high <= done {
        return high;
    }
    if i < done {
        return done;
    }
    let j = lists_flags::block_end(i, high);
    lists_flags::set_flags(flags, i, j);
    j
}

// Sets the flags from low on, up to high, to 1, and passes over what is known to be full. A `for` cannot jump over it.
fn set_blocks(flags: &mut [u8], full: &[u16; 512], low: usize, high: usize)
    requires low_le_high { (low ≤ high) × (high ≤ length flags.old) × (high ≤ 131072) }
    requires full { Full full.now flags.old }
    ensures { flags.new ≡ sets flags.old low (replicate (high - low) 1) }
{
    let mut i = low;
    while i < high {
        i = set_part(flags, i, high, full[i / BLOCK]);
    }
}

// Notes that the blocks from b on, up to last, are full.
fn note_full(full: &mut [u16; 512], b: usize, last: u16)
    requires { b < 512 }
    ensures { full.new ≡ set full.old b (max (get_or full.old b 0) last) }
{
    full[b] = full[b].max(last);
}

// Sets the flags from low on, up to high, to 1, and notes that its blocks are full.
fn set_long(flags: &mut [u8], full: &mut [u16; 512], low: usize, high: usize)
    requires low_bound { (low + 256 ≤ high) × (high ≤ length flags.old) × (high ≤ 131072) }
    requires full { Full full.old flags.old }
    ensures flags_after { flags.new ≡ sets flags.old low (replicate (high - low) 1) }
    ensures full_2 { Full full.new flags.new }
{
    set_blocks(flags, full, low, high);
    note_full(full, low.div_ceil(BLOCK), (high / BLOCK) as u16);
}

// Sets the flags from low on, up to high, to 1: where they are many, those known to be 1 are passed over.
pub fn set_span(flags: &mut [u8], full: &mut [u16; 512], low: usize, high: usize)
    requires low_in_bounds { (low ≤ length flags.old) × (high ≤ length flags.old) }
    requires full { Full full.old flags.old }
    ensures flags_after { flags.new ≡ sets flags.old low (replicate (high - low) 1) }
    ensures full_2 { Full full.new flags.new }
{
    if low + LONG <= high && high <= NOTED {
        set_long(flags, full, low, high);
        return;
    }
    lists_flags::set_flags(flags, low, high);
}

// Sets the flags of the points of a stretch, if there is one, to 1; where the next stretch's points most likely begin.
fn mark_stretch(
    flags: &mut [u8],
    full: &mut [u16; 512],
    points: &[u32],
    stretch: Option<Stretch>,
    near: usize,
) -> usize
    requires flags { Flags points.now flags.old }
    requires full { Full full.old flags.old }
    ensures flags_after { flags.new ≡ marked (stretch_holds stretch) points.now flags.old }
    ensures full_2 { Full full.new flags.new }
{
    let Some(Stretch { start, end }) = stretch else {
        return near;
    };
    if lists_spans::is_passed(points, start, end, near) {
        return near;
    }
    let span = lists_spans::span_near(points, start, end, near);
    set_span(flags, full, span.low, span.high);
    span.high
}

// The walk over the groups, from flags that are clear.
fn mark_groups_by(subtable: &Format12, points: &[u32], flags: &mut [u8], full: &mut [u16; 512])
    requires flags { Flags points.now flags.old }
    requires cleared { Cleared (length points.now) flags.old }
    requires full { Full full.old flags.old }
    ensures { flags.new ≡ sets flags.old 0 (flagged (maps12 subtable.now.source.now subtable.now.at subtable.now.groups subtable.now.glyphs) points.now) }
{
    let mut near = 0;
    for g in 0..subtable.groups {
        let stretch = subtable.group_at(g);
        near = mark_stretch(flags, full, points, stretch, near);
    }
}

// The same, with the row of what is full: nothing is at first.
fn mark_groups(subtable: &Format12, points: &[u32], flags: &mut [u8])
    requires flags { Flags points.now flags.old }
    requires cleared { Cleared (length points.now) flags.old }
    ensures { flags.new ≡ sets flags.old 0 (flagged (maps12 subtable.now.source.now subtable.now.at subtable.now.groups subtable.now.glyphs) points.now) }
{
    let mut full = [0u16; 512];
    mark_groups_by(subtable, points, flags, &mut full);
}

// Sets the flag of each point to whether the subtable maps it.
pub fn collect_unicodes12(subtable: &Format12, points: &[u32], flags: &mut [u8])
    requires { Flags points.now flags.old }
    ensures { flags.new ≡ sets flags.old 0 (flagged (maps12 subtable.now.source.now subtable.now.at subtable.now.groups subtable.now.glyphs) points.now) }
{
    lists_flags::clear(flags, points.len());
    mark_groups(subtable, points, flags);
}
