// What a host calls: the two calls over pair records, and the two print heads. Any sizes and any bytes get an answer.
#![tactic(auto)]

ghost use Rattle.std.specs.Prelude.{◌≡◌, length};
ghost use Rattle.heads.specs.Heads.{old_head, new_head};
ghost use Rattle.host_told.specs.Told.{told, told_fate, told_head};
ghost use Rattle.host_calls.specs.Calls.{subset_of, record_fate_of, codes_after, glyphs_after, out_after};

use host_pairs::PairRecord;
use host_told::{FateAnswer, HeadAnswer, SubsetAnswer};
use plan_listing::Job;

// ---- the print heads

pub fn cmap_old_head(table: &[u8], c: u32) -> HeadAnswer
    ensures { result ≡ told_head (old_head table.now c) }
{
    host_told::old_head(table, c)
}

pub fn cmap_new_head(table: &[u8], c: u32) -> HeadAnswer
    ensures { result ≡ told_head (new_head table.now c) }
{
    host_told::new_head(table, c)
}

// ---- the calls

pub fn cmap_subset(
    source: &[u8],
    pairs: &[PairRecord],
    codes: &mut [u32],
    glyphs: &mut [u16],
    kept: &[u32],
    map: &[u16],
    requested: &[u16],
    out: &mut [u8],
) -> SubsetAnswer
    ensures { (result ≡ told (subset_of source.now pairs.now codes.old glyphs.old kept.now map.now requested.now (length out.old)))
        × (codes.new ≡ codes_after source.now pairs.now codes.old glyphs.old kept.now map.now requested.now)
        × (glyphs.new ≡ glyphs_after source.now pairs.now codes.old glyphs.old kept.now map.now requested.now)
        × (out.new ≡ out_after source.now pairs.now codes.old glyphs.old kept.now map.now requested.now out.old) }
{
    let n = pairs.len();
    if host_pairs::sizes_broken(
        source.len(),
        n,
        codes.len(),
        glyphs.len(),
        kept.len(),
        map.len(),
        requested.len(),
    ) {
        return SubsetAnswer {
            number: 1,
            length: 0,
            records: 0,
        };
    }
    host_pairs::copy_pairs(pairs, codes, glyphs);
    let job = Job {
        source,
        codes: &codes[..n],
        glyphs: &glyphs[..n],
        kept,
        map,
        requested,
    };
    cmap::subset(&job, out).into()
}

pub fn cmap_fate(
    source: &[u8],
    pairs: &[PairRecord],
    codes: &mut [u32],
    glyphs: &mut [u16],
    kept: &[u32],
    map: &[u16],
    requested: &[u16],
    k: usize,
) -> FateAnswer
    ensures { (result ≡ told_fate (record_fate_of source.now pairs.now codes.old glyphs.old kept.now map.now requested.now k))
        × (codes.new ≡ codes_after source.now pairs.now codes.old glyphs.old kept.now map.now requested.now)
        × (glyphs.new ≡ glyphs_after source.now pairs.now codes.old glyphs.old kept.now map.now requested.now) }
{
    let n = pairs.len();
    if host_pairs::sizes_broken(
        source.len(),
        n,
        codes.len(),
        glyphs.len(),
        kept.len(),
        map.len(),
        requested.len(),
    ) {
        return FateAnswer {
            number: 1,
            platform: 0,
            encoding: 0,
            kind: 7,
            offset: 0,
        };
    }
    host_pairs::copy_pairs(pairs, codes, glyphs);
    let job = Job {
        source,
        codes: &codes[..n],
        glyphs: &glyphs[..n],
        kept,
        map,
        requested,
    };
    cmap::fate_of(&job, k).into()
}
