// The pairs as a host lends them: one slice of records, whose sizes are settled before they are copied into two slices of numbers.
#![tactic(auto)]

ghost use Rattle.std.specs.Prelude.{◌≡◌, ◌≤◌, length};
ghost use Rattle.laws.specs.Lists.{laid};
ghost use Rattle.host_pairs.specs.Pairs.{codes_of, glyphs_of};
ghost use Rattle.host_pairs.specs.Sizes.{sizes_broken};

// A listed code point and its new glyph.
#[repr(C)]
#[derive(Clone, Copy)]
pub struct PairRecord {
    pub code: u32,
    pub glyph: u16,
}

// Puts the code points and the glyphs of the records into the first places of two lists.
pub fn copy_pairs(pairs: &[PairRecord], codes: &mut [u32], glyphs: &mut [u16])
    requires { (length pairs.now ≤ length codes.old) × (length pairs.now ≤ length glyphs.old) }
    ensures { (codes.new ≡ laid (codes_of pairs.now) codes.old)
        × (glyphs.new ≡ laid (glyphs_of pairs.now) glyphs.old) }
{
    for (i, p) in pairs.iter().enumerate() {
        codes[i] = p.code;
        glyphs[i] = p.glyph;
    }
}

pub fn sizes_broken(
    source: usize,
    pairs: usize,
    codes: usize,
    glyphs: usize,
    kept: usize,
    map: usize,
    requested: usize,
) -> bool
    ensures { result ≡ sizes_broken source pairs codes glyphs kept map requested }
{
    codes < pairs
        || glyphs < pairs
        || lists_checks::bad_sizes(source, pairs, pairs, kept, map, requested)
}
