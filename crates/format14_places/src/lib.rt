// Where the new tables of a format 14 subtable stand: each is measured once, a table whose source stood before not again, and placed by its
// distance from the subtable's end, equal ones at one place.
#![tactic(auto)]

ghost use Rattle.std.specs.Prelude.{◌≡◌, ◌≤◌, ◌*◌, ◌<◌, length, IfSome};
ghost use Rattle.format14.specs.Selectors.{selector_records, names_missing};
ghost use Rattle.format14.specs.Lent.{lent_job14};
ghost use Rattle.format14.specs.ByNumber.{slot, Numbered, Measured, Measures};
ghost use Rattle.std.specs.List.{list_any};
ghost use Rattle.format14_places.specs.Measuring.{EarlierTable};
ghost use Rattle.laws.specs.Select.{eq_list};
ghost use Rattle.format14.specs.Ends.{later_equal, Ends, Total};
ghost use Rattle.number.specs.Limits.{tables_max};

use format14::Lent14;
use format14_sharing::Measure;

// What was found of the last table before t, of t's sort, whose source stands at `off`.
fn earlier(measures: &[Measure], t: usize, off: usize) -> Option<Measure>
    requires { t ≤ length measures.now }
    ensures { IfSome result (EarlierTable measures.now t off) }
{
    for k in (0..t / 2).rev() {
        let table = measures[2 * k + t % 2];
        if table.source as usize == off {
            return Some(table);
        }
    }
    None
}

// What is found of table t. A table from the place of an earlier one is like that one and not measured again. The flags are work room.
fn measure_one(job: &Lent14, flags: &mut [u8], measures: &[Measure], t: usize) -> Measure
    requires numbered { Numbered (lent_job14 job.now) flags.old t }
    requires measured { Measures (lent_job14 job.now) t measures.now }
    ensures { Measured (lent_job14 job.now) t result }
{
    let off = format14_tables::source_table(job, t);
    if let Some(like) = earlier(measures, t, off) {
        return like;
    }
    format14_tables::measure_table(job, flags, t, off)
}

// Measures the new tables. The flags are work room.
pub fn measure(job: &Lent14, flags: &mut [u8], measures: &mut [Measure])
    requires kept_in_bounds { length job.now.kept.now ≤ length flags.old }
    requires tables_max_in_bounds { tables_max ≤ length measures.old }
    ensures { let g = lent_job14 job.now in Measures g (2 * selector_records g) measures.new }
{
    for t in 0..format14_tables::count_tables(job.source, job.at) {
        measures[t] = measure_one(job, flags, measures, t);
    }
}

// Whether one of the tables brings refusal 8.
fn some_bad(measures: &[Measure]) -> bool
    ensures { result ≡ list_any (λ m. m.bad) measures.now }
{
    measures.iter().any(|table| table.bad)
}

// Refusal 8: whether some kept selector record has a mapping to be kept that names a missing glyph.
pub fn names_missing(job: &Lent14, measures: &[Measure]) -> bool
    requires { let g = lent_job14 job.now in Measures g (2 * selector_records g) measures.now }
    ensures { result ≡ names_missing (lent_job14 job.now) }
{
    some_bad(&measures[..format14_tables::count_tables(job.source, job.at)])
}

// Whether tables t and j, the first of them there, are equal. Lengths and checksums rule most out. The flags are work room.
fn equal_tables(
    job: &Lent14,
    flags: &mut [u8],
    others: &mut [u8],
    measures: &[Measure],
    t: usize,
    j: usize,
) -> bool
    requires numbered { Numbered (lent_job14 job.now) flags.old t }
    requires numbered_2 { Numbered (lent_job14 job.now) others.old j }
    requires measured { let g = lent_job14 job.now in Measures g (2 * selector_records g) measures.now }
    requires there { 0 < length (slot (lent_job14 job.now) t) }
    ensures { let g = lent_job14 job.now in result ≡ eq_list (slot g t) (slot g j) }
{
    format14_sharing::alike(&measures[t], &measures[j])
        && format14_tables::same_table(job, flags, others, t, j)
}

// The next table after t, which is there, that equals it; the number of tables if none does. The flags are work room, which each comparison changes, so that
// no Fn can be the test of a search.
fn later_equal(
    job: &Lent14,
    flags: &mut [u8],
    others: &mut [u8],
    measures: &[Measure],
    t: usize,
) -> usize
    requires numbered { Numbered (lent_job14 job.now) flags.old t }
    requires kept_in_bounds { length job.now.kept.now ≤ length others.old }
    requires measured { let g = lent_job14 job.now in Measures g (2 * selector_records g) measures.now }
    requires there { 0 < length (slot (lent_job14 job.now) t) }
    ensures { let g = lent_job14 job.now in result ≡ later_equal (slot g) (2 * selector_records g) t }
{
    let m = format14_tables::count_tables(job.source, job.at);
    for j in t + 1..m {
        if equal_tables(job, flags, others, measures, t, j) {
            return j;
        }
    }
    m
}

// The distance of each table from the end of the subtable, found from the last table to the first; the length of all that are written.
// The flags are work room.
pub fn place_tables(
    job: &Lent14,
    flags: &mut [u8],
    others: &mut [u8],
    measures: &[Measure],
    ends: &mut [usize],
) -> usize
    requires kept_in_bounds { (length job.now.kept.now ≤ length flags.old) × (length job.now.kept.now ≤ length others.old) }
    requires measured { let g = lent_job14 job.now in Measures g (2 * selector_records g) measures.now }
    requires tables_max_in_bounds { tables_max ≤ length ends.old }
    ensures { let g = lent_job14 job.now in Ends (slot g) (2 * selector_records g) ends.new × Total (slot g) (2 * selector_records g) result }
{
    let m = format14_tables::count_tables(job.source, job.at);
    let mut tail = 0;
    for k in (0..m).rev() {
        let size = measures[k].size;
        if size == 0 {
            ends[k] = 0;
        } else {
            let j = later_equal(job, flags, others, measures, k);
            tail = format14_sharing::place_table(ends, m, k, size, j, tail);
        }
    }
    tail
}
