// The new non-default table of a selector record: how long it is, a checksum, whether it names a missing glyph, and its bytes.
#![tactic(auto)]

ghost use Rattle.std.specs.Prelude.{◌≡◌, ◌+◌, ◌≤◌, length};
ghost use Rattle.std.proofs.lemmas.List.Edits.{sets};
ghost use Rattle.lists_marks.specs.Marks.{Bound};
ghost use Rattle.format14_uvs.specs.Checksum.{checksum};
ghost use Rattle.laws.specs.Lists.{Rising};
ghost use Rattle.format14_mapping.specs.Lent.{MappingCount};
ghost use Rattle.format14_mapping.specs.Table.{table_rows, table_new, table_bad};

use format14_mapping::NonDefaultTable;
use lists_places::{MANY, PLACES};

// How many kept points are below c: by places noted of them, or with none from `near` on.
fn count_for(kept: &[u32], c: u32, places: Option<&[u32; PLACES]>, near: usize) -> usize
    requires { Rising kept.now }
    ensures { Bound kept.now c result }
{
    match places {
        Some(places) => lists_places::count_by(kept, c, places, near),
        None => format14_staying::count_next(kept, c, near),
    }
}

// How long a new table is, 0 where there is none, a checksum of its bytes, and refusal 8: whether a mapping to be kept names a missing glyph. Each is
// promised whatever the others are.
#[derive(Clone, Copy)]
pub struct NonDefaultMeasure {
    pub size: usize,
    pub sum: u64,
    pub bad: bool,
}

// All in one walk of the source's mappings.
fn measure_by(table: &NonDefaultTable, places: Option<&[u32; PLACES]>) -> NonDefaultMeasure
    ensures size_value { result.size ≡ length (table_new table.now) }
    ensures sum_value { result.sum ≡ checksum 5 (table_new table.now) }
    ensures bad_value { result.bad ≡ table_bad table.now }
{
    let (s, at) = (table.source, table.at);
    let (kept, map, requested) = (table.kept, table.map, table.requested);
    let mut near = 0;
    let mut n = 0;
    let mut sum = 0;
    let mut bad = false;
    for i in 0..number::u32_at(s, at) as usize {
        let from = at + 4 + 5 * i;
        let c = number::u24_at(s, from);
        near = count_for(kept, c, places, near);
        let stays = format14_staying::stays_at(s, from, kept, requested, c, near);
        if stays {
            n += 1;
            let more = format14_mapping::mix_mapping(sum, bad, s, from, map);
            sum = more.sum;
            bad = more.bad;
        }
    }
    let size = if n == 0 { 0 } else { 4 + 5 * n };
    NonDefaultMeasure { size, sum, bad }
}

// The same, with places of the kept points noted first where the table is large.
pub fn measure_non_default(table: &NonDefaultTable) -> NonDefaultMeasure
    ensures size_value { result.size ≡ length (table_new table.now) }
    ensures sum_value { result.sum ≡ checksum 5 (table_new table.now) }
    ensures bad_value { result.bad ≡ table_bad table.now }
{
    if number::u32_at(table.source, table.at) as usize >= MANY {
        let mut places = [0u32; PLACES];
        lists_places::note_places(&mut places, table.kept);
        return measure_by(table, Some(&places));
    }
    measure_by(table, None)
}

// Writes every mapping that stays, in the source's order; how many.
fn copy_by(
    out: &mut [u8],
    to: usize,
    table: &NonDefaultTable,
    places: Option<&[u32; PLACES]>,
) -> usize
    requires { to + length (table_rows table.now) ≤ length out.old }
    ensures mapping_count { MappingCount table.now.source.now table.now.at table.now.kept.now table.now.requested.now result }
    ensures out_after { out.new ≡ sets out.old to (table_rows table.now) }
{
    let (s, at) = (table.source, table.at);
    let (kept, map, requested) = (table.kept, table.map, table.requested);
    let mut near = 0;
    let mut n = 0;
    for i in 0..number::u32_at(s, at) as usize {
        let from = at + 4 + 5 * i;
        let c = number::u24_at(s, from);
        near = count_for(kept, c, places, near);
        if format14_staying::stays_at(s, from, kept, requested, c, near) {
            format14_mapping::copy_uvs_mapping(out, to + 5 * n, s, from, map);
            n += 1;
        }
    }
    n
}

// The same, with places of the kept points noted first where the table is large.
fn copy_mappings(out: &mut [u8], to: usize, table: &NonDefaultTable) -> usize
    requires { to + length (table_rows table.now) ≤ length out.old }
    ensures mapping_count { MappingCount table.now.source.now table.now.at table.now.kept.now table.now.requested.now result }
    ensures out_after { out.new ≡ sets out.old to (table_rows table.now) }
{
    if number::u32_at(table.source, table.at) as usize >= MANY {
        let mut places = [0u32; PLACES];
        lists_places::note_places(&mut places, table.kept);
        return copy_by(out, to, table, Some(&places));
    }
    copy_by(out, to, table, None)
}

// Writes the new table, its count after its mappings; nothing where there is none.
pub fn copy_non_default_uvs(out: &mut [u8], to: usize, table: &NonDefaultTable)
    requires { to + length (table_new table.now) ≤ length out.old }
    ensures { out.new ≡ sets out.old to (table_new table.now) }
{
    if out.len() - to < 4 {
        return;
    }
    let n = copy_mappings(out, to + 4, table);
    if n == 0 {
        return;
    }
    number_writer::put_u32(out, to, n as u32);
}
