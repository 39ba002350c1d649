// One mapping of a non-default table: its new glyph, and how it is mixed into a checksum and written.
#![tactic(auto)]

ghost use Rattle.std.specs.Prelude.{◌≡◌, ◌+◌, ◌≤◌, length};
ghost use Rattle.std.proofs.lemmas.List.Edits.{sets};
ghost use Rattle.laws.specs.Choice.{either};
ghost use Rattle.format14_uvs.specs.Checksum.{mixed};
ghost use Rattle.format14_uvs.specs.NonDefault.{mapping, mapping_bytes, missing};
ghost use Rattle.format14_mapping.specs.Lent.{NewNumber, NonDefaultLent};

// A non-default table of the source, which can be read at `at`, and the lists by which its mappings stay and get new glyphs.
#[derive(Clone, Copy)]
pub struct NonDefaultTable<'a> {
    pub source: &'a [u8],
    pub at: usize,
    pub kept: &'a [u32],
    pub map: &'a [u16],
    pub requested: &'a [u16],
    ghost lent: { NonDefaultLent source.now at kept.now requested.now },
}

// The new glyph of an old one; 65,535 where the map has none.
pub fn new_glyph(map: &[u16], old: u32) -> u16
    ensures { NewNumber map.now old result }
{
    map.get(old as usize)
        .copied()
        .unwrap_or(number::limits::NewGlyph::ABSENT)
}

// A checksum of mappings, and whether one of them names a glyph that the map misses. Both are promised whatever the other is, so that no Err takes a place.
#[derive(Clone, Copy)]
pub struct Mixed {
    pub sum: u64,
    pub bad: bool,
}

// The same with one mapping more, which is mixed in as its code point and new glyph.
pub fn mix_mapping(sum: u64, bad: bool, s: &[u8], place: usize, map: &[u16]) -> Mixed
    requires { place + 5 ≤ length s.now }
    ensures sum_value { result.sum ≡ mixed 5 sum (mapping_bytes map.now (mapping s.now place)) }
    ensures bad_value { result.bad ≡ either bad (missing map.now (mapping s.now place).1) }
{
    let c = number::u24_at(s, place);
    let old = number::u16_at(s, place + 3);
    let new = new_glyph(map, old);
    Mixed {
        sum: format14_uvs::mix(sum, u64::from(c) * 65536 + u64::from(new)),
        bad: bad || new == number::limits::NewGlyph::ABSENT,
    }
}

// Writes a mapping's code point and new glyph.
pub fn copy_uvs_mapping(out: &mut [u8], to: usize, s: &[u8], place: usize, map: &[u16])
    requires { (to + 5 ≤ length out.old) × (place + 5 ≤ length s.now) }
    ensures { out.new ≡ sets out.old to (mapping_bytes map.now (mapping s.now place)) }
{
    let c = number::u24_at(s, place);
    let old = number::u16_at(s, place + 3);
    let new = u32::from(new_glyph(map, old));
    number_writer::put_u24(out, to, c);
    number_writer::put_u16(out, to + 3, new);
}
