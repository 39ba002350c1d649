// What a group of a format 12 subtable gives for a code point, read from any bytes.
#![tactic(auto)]

ghost use Rattle.std.specs.Prelude.{◌≡◌, ◌<◌};
ghost use Rattle.source.specs.Room.{Room12};
ghost use Rattle.heads_lookup.specs.Lookup.{in_group};

// The answer of group i: none where nothing is there, which is not the same as glyph 0. A sum that 32 bits don't hold is above 65,535 too.
pub fn in_group(s: &[u8], at: usize, groups: usize, i: usize, c: u32) -> Option<u32>
    requires room12 { Room12 s.now at groups }
    requires i_lt_groups { i < groups }
    ensures { result ≡ in_group s.now at i c }
{
    let start_char_code = number::u32_at(s, at + 16 + 12 * i);
    let start_glyph_id = number::u32_at(s, at + 24 + 12 * i);
    let glyph = start_glyph_id.checked_add(c.checked_sub(start_char_code)?)?;
    (glyph <= 65535).then_some(glyph)
}
