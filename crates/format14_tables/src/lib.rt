// The new tables of the source's selector records, by number: how long each is, whether two are equal, and their bytes. The number says the sort, even for
// a default table: an enum of the sorts would be made from `t % 2` and matched at once.
#![tactic(auto)]

ghost use Rattle.std.specs.Prelude.{◌≡◌, ◌+◌, ◌*◌, ◌%◌, ◌<◌, ◌≤◌, length};
ghost use Rattle.std.proofs.lemmas.List.Edits.{sets};
ghost use Rattle.laws.specs.Select.{eq_list};
ghost use Rattle.number.specs.BigEndian.{be};
ghost use Rattle.format14.specs.Selectors.{selector_records};
ghost use Rattle.format14.specs.Lent.{lent_job14};
ghost use Rattle.format14.specs.ByNumber.{slot, SourceOffset, Numbered, Measured, BothThere};

use format14::Lent14;
use format14_mapping::NonDefaultTable;
use format14_sharing::Measure;

// How many tables the source's subtable at `at` has: two for each selector record.
pub fn count_tables(s: &[u8], at: usize) -> usize
    requires { at + 10 ≤ length s.now }
    ensures { result ≡ 2 * be 4 s.now (at + 6) }
{
    2 * number::u32_at(s, at + 6) as usize
}

// The offset of the source's table t; 0 if its selector is not kept or it does not count, as 0 is no table in a selector record.
pub fn source_table(job: &Lent14, t: usize) -> usize
    requires { t < 2 * selector_records (lent_job14 job.now) }
    ensures { SourceOffset (lent_job14 job.now) t result }
{
    let record = job.at + 10 + 11 * (t / 2);
    if lists_marks::member(job.kept, number::u24_at(job.source, record)) {
        let off = number::u32_at(job.source, record + 3 + 4 * (t % 2));
        if format14_uvs::counts(job.source, job.at, job.len, off, 4 + t % 2) {
            return off as usize;
        }
    }
    0
}

// What is found of new table t, whose source stands at `off`. The flags are work room.
pub fn measure_table(job: &Lent14, flags: &mut [u8], t: usize, off: usize) -> Measure
    requires numbered { Numbered (lent_job14 job.now) flags.old t }
    requires source_offset { SourceOffset (lent_job14 job.now) t off }
    ensures { Measured (lent_job14 job.now) t result }
{
    let source = off as u32;
    if off == 0 {
        return Measure {
            size: 0,
            sum: 0,
            bad: false,
            source,
        };
    }
    let p = job.at + off;
    if t % 2 == 0 {
        let table = format14_default::measure_default(job.source, p, job.kept, flags);
        return Measure {
            size: table.size,
            sum: table.sum,
            bad: false,
            source,
        };
    }
    let table = format14_non_default::measure_non_default(&NonDefaultTable {
        source: job.source,
        at: p,
        kept: job.kept,
        map: job.map,
        requested: job.requested,
    });
    Measure {
        size: table.size,
        sum: table.sum,
        bad: table.bad,
        source,
    }
}

// Whether the new tables i and j, both there, are equal. A default table never equals a non-default one, and tables of one sort from one place of the
// source are equal; others are compared in full. The flags are work room.
pub fn same_table(job: &Lent14, flags: &mut [u8], others: &mut [u8], i: usize, j: usize) -> bool
    requires numbered { Numbered (lent_job14 job.now) flags.old i }
    requires numbered_2 { Numbered (lent_job14 job.now) others.old j }
    requires both_there { BothThere (lent_job14 job.now) i j }
    ensures { result ≡ eq_list (slot (lent_job14 job.now) i) (slot (lent_job14 job.now) j) }
{
    if i % 2 != j % 2 {
        return false;
    }
    let p = source_table(job, i);
    let q = source_table(job, j);
    if p == q {
        return true;
    }
    if i % 2 == 0 {
        return format14_same::same_default(
            job.source,
            job.at + p,
            job.at + q,
            job.kept,
            flags,
            others,
        );
    }
    format14_same::same_non_default(
        job.source,
        job.at + p,
        job.at + q,
        job.kept,
        job.map,
        job.requested,
    )
}

// Writes new table t; nothing where there is none.
pub fn copy_table(out: &mut [u8], to: usize, job: &Lent14, flags: &mut [u8], t: usize)
    requires numbered { Numbered (lent_job14 job.now) flags.old t }
    requires room { to + length (slot (lent_job14 job.now) t) ≤ length out.old }
    ensures { out.new ≡ sets out.old to (slot (lent_job14 job.now) t) }
{
    let off = source_table(job, t);
    if off == 0 {
        return;
    }
    let p = job.at + off;
    if t % 2 == 0 {
        format14_default::copy_default_uvs(out, to, job.source, p, job.kept, flags);
        return;
    }
    let table = NonDefaultTable {
        source: job.source,
        at: p,
        kept: job.kept,
        map: job.map,
        requested: job.requested,
    };
    format14_non_default::copy_non_default_uvs(out, to, &table);
}
