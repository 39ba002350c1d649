// What C links: each call of the library under its C name, with its clauses.
#![tactic(auto)]

ghost use Rattle.std.specs.Prelude.{◌≡◌, length};
ghost use Rattle.heads.specs.Heads.{old_head, new_head};
ghost use Rattle.host_told.specs.Told.{told, told_fate, told_head};
ghost use Rattle.host_calls.specs.Calls.{subset_of, record_fate_of, codes_after, glyphs_after, out_after};

use host_pairs::PairRecord;
use host_told::{FateAnswer, HeadAnswer, SubsetAnswer};

#[unsafe(no_mangle)]
pub extern "C" fn cmap_old_head(table: &[u8], c: u32) -> HeadAnswer
    ensures { result ≡ told_head (old_head table.now c) }
{
    crustedlane::cmap_old_head(table, c)
}

#[unsafe(no_mangle)]
pub extern "C" fn cmap_new_head(table: &[u8], c: u32) -> HeadAnswer
    ensures { result ≡ told_head (new_head table.now c) }
{
    crustedlane::cmap_new_head(table, c)
}

#[unsafe(no_mangle)]
pub extern "C" fn cmap_subset(
    source: &[u8],
    pairs: &[PairRecord],
    codes: &mut [u32],
    glyphs: &mut [u16],
    kept: &[u32],
    map: &[u16],
    requested: &[u16],
    out: &mut [u8],
) -> SubsetAnswer
    ensures { (result ≡ told (subset_of source.now pairs.now codes.old glyphs.old kept.now map.now requested.now (length out.old)))
        × (codes.new ≡ codes_after source.now pairs.now codes.old glyphs.old kept.now map.now requested.now)
        × (glyphs.new ≡ glyphs_after source.now pairs.now codes.old glyphs.old kept.now map.now requested.now)
        × (out.new ≡ out_after source.now pairs.now codes.old glyphs.old kept.now map.now requested.now out.old) }
{
    crustedlane::cmap_subset(source, pairs, codes, glyphs, kept, map, requested, out)
}

#[unsafe(no_mangle)]
pub extern "C" fn cmap_fate(
    source: &[u8],
    pairs: &[PairRecord],
    codes: &mut [u32],
    glyphs: &mut [u16],
    kept: &[u32],
    map: &[u16],
    requested: &[u16],
    k: usize,
) -> FateAnswer
    ensures { (result ≡ told_fate (record_fate_of source.now pairs.now codes.old glyphs.old kept.now map.now requested.now k))
        × (codes.new ≡ codes_after source.now pairs.now codes.old glyphs.old kept.now map.now requested.now)
        × (glyphs.new ≡ glyphs_after source.now pairs.now codes.old glyphs.old kept.now map.now requested.now) }
{
    crustedlane::cmap_fate(source, pairs, codes, glyphs, kept, map, requested, k)
}
