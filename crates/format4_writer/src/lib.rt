// Writes a format 4 subtable: its header, its columns and its glyph array, in one walk over the pairs.
#![tactic(auto)]

ghost use Rattle.std.specs.Prelude.{◌≡◌, ◌∷◌, [], ◌+◌, ◌-◌, ◌*◌, ◌^◌, ◌≤◌, ◌<◌, length};
ghost use Rattle.std.proofs.lemmas.List.Edits.{sets};
ghost use Rattle.laws.specs.Lists.{pairs};
ghost use Rattle.number.specs.Row.{encs};
ghost use Rattle.format4.specs.declared.Size4.TheVariants.{Fits};
ghost use Rattle.format4_cutting.specs.Cutting.{segments};
ghost use Rattle.format4.specs.Format4.{floor_log2, format4};
ghost use Rattle.format4.specs.Size.{Columns16, length_of4, size_of4};
ghost use Rattle.format4_columns.specs.Places.{SegmentsRoom, columns_at, Apart, headed, Space};

use format4::RangeCounter;
use format4_columns::RangeWriter;
use format4_cutting::RangeState;

// log2 of s rounded down.
fn floor_log2(s: u32) -> u32
    requires { (1 ≤ s) × (s < 65536) }
    ensures value { result ≡ floor_log2 s }
    ensures power { 2 ^ result ≤ s }
    ensures small { (result ≤ s) × (result < 32) }
{
    s.ilog2()
}

// Numbers of two bytes each. The glyph array has a loop of its own, since its glyphs are a part of a longer column and of another type.
fn put_row(out: &mut [u8], at: usize, row: &[u32])
    requires { at + 2 * length row.now ≤ length out.old }
    ensures { out.new ≡ sets out.old at (encs 2 row.now) }
{
    for (i, number) in row.iter().enumerate() {
        number_writer::put_u16(out, at + 2 * i, *number);
    }
}

// The seven numbers of the header, and the zero after the ends.
fn put_header(out: &mut [u8], at: usize, language: u32, s: usize, g: usize)
    requires { Space s g at (length out.old) }
    ensures { out.new ≡ headed out.old at language s g }
{
    let length = (16 + 8 * s + 2 * g) as u32;
    let twice = (2 * s) as u32;
    let log = floor_log2(s as u32);
    let range = 2 * (1 << log);
    let header = [4, length, language, twice, range, log, twice - range];
    put_row(out, at, &header);
    number_writer::put_u16(out, at + 14 + 2 * s, 0);
}

// The columns and the glyph array.
fn write_columns(out: &mut [u8], codes: &[u32], glyphs: &[u16], at: RangeWriter)
    requires columns16 { Columns16 codes.now glyphs.now }
    requires apart { Apart at (length (segments (pairs codes.now glyphs.now))) 0 }
    requires segments_room { SegmentsRoom at (segments (pairs codes.now glyphs.now)) (length glyphs.now) (length out.old) }
    ensures { out.new ≡ columns_at glyphs.now out.old at 0 (segments (pairs codes.now glyphs.now)) }
{
    let mut state = RangeState::new();
    let mut w = at;
    let mut i: usize = 0;
    // A run at a time, for which a `for` cannot jump: growing to its last pair takes in all that go on.
    while i < codes.len() {
        let a = state.absorb(codes[i] as u16, glyphs[i]);
        let begun = a.state;
        w = w.absorb(out, glyphs, a.out);
        i = lists_runs::run_end(codes, glyphs, i);
        state = begun.grow(codes[i - 1] as u16, glyphs[i - 1]);
    }
    let f = state.finish();
    let v = w.absorb(out, glyphs, f.out);
    v.close(out, glyphs, f.close);
}

// The whole subtable, from at. n is what format4_size gave.
pub fn write_format4(
    out: &mut [u8],
    at: usize,
    language: u32,
    codes: &[u32],
    glyphs: &[u16],
    n: RangeCounter,
)
    requires columns16 { Columns16 codes.now glyphs.now }
    requires counted { size_of4 (pairs codes.now glyphs.now) ≡ Fits n }
    requires room { at + length_of4 n ≤ length out.old }
    ensures { out.new ≡ sets out.old at (format4 language (pairs codes.now glyphs.now)) }
{
    put_header(out, at, language, n.segments, n.glyphs);
    write_columns(out, codes, glyphs, RangeWriter::new(at, n.segments));
}
