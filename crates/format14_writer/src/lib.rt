// The new subtable of format 14: which selector records stay, where their tables stand, and its bytes.
#![tactic(auto)]

ghost use Rattle.std.specs.Prelude.{◌≡◌, ◌++◌, ◌+◌, ◌*◌, ◌<◌, ◌≤◌, length};
ghost use Rattle.std.proofs.lemmas.List.Edits.{sets};
ghost use Rattle.laws.specs.Pieces.{concat};
ghost use Rattle.laws.specs.Select.{flat};
ghost use Rattle.format14.specs.Selectors.{selector_records};
ghost use Rattle.format14.specs.Lent.{lent_job14};
ghost use Rattle.format14.specs.ByNumber.{slot};
ghost use Rattle.format14.specs.SelectorRecords.{used_records, record_at, header14_with, Distances};
ghost use Rattle.format14.specs.Ends.{written_from, Ends};
ghost use Rattle.format14.specs.Format14.{rows, length_of14, format14, outcome14, length_in};
ghost use Rattle.format14.specs.Parts.{outcome_from, Stops, ends_at};
ghost use Rattle.number.specs.Limits.{tables_max};

use format14::{Lent14, Outcome14};
use format14_sharing::Measure;

// Refusal 8 comes first; a subtable without selector records is empty.
fn outcome_from(refused: bool, count: usize, total: usize) -> Outcome14
    ensures { result ≡ outcome_from refused count total }
{
    if refused {
        return Outcome14::Refused8;
    }
    if count == 0 {
        return Outcome14::Empty;
    }
    Outcome14::Length(total)
}

// What becomes of the subtable; `ends` then holds the distance of each of its tables from its end, where it is refused too. The flags are work room.
pub fn size(job: &Lent14, flags: &mut [u8], others: &mut [u8], ends: &mut [usize]) -> Outcome14
    requires kept_in_bounds { (length job.now.kept.now ≤ length flags.old) × (length job.now.kept.now ≤ length others.old) }
    requires tables_max_in_bounds { tables_max ≤ length ends.old }
    ensures laid_out { let g = lent_job14 job.now in (result ≡ outcome14 g) × Ends (slot g) (2 * selector_records g) ends.new }
    ensures result_bound { length_in result < 4294967296 }
{
    let mut measures = [Measure {
        size: 0,
        sum: 0,
        bad: false,
        source: 0,
    }; number::limits::TABLES_MAX];
    format14_places::measure(job, flags, &mut measures);
    let refused = format14_places::names_missing(job, &measures);
    let tail = format14_places::place_tables(job, flags, others, &measures, ends);
    let count = format14_selectors::count_records(
        ends,
        number::u32_at(job.source, job.at + 6) as usize,
    );
    outcome_from(refused, count, 10 + 11 * count + tail)
}

// Writes the header of a subtable of `total` bytes, and behind it the selector records that have a table.
fn put_front(out: &mut [u8], place: usize, job: &Lent14, ends: &[usize], total: usize)
    requires { let n = selector_records (lent_job14 job.now) in Distances n total ends.now × (place + 10 + 11 * length (used_records ends.now n) ≤ length out.old) }
    ensures { let ks = used_records ends.now (selector_records (lent_job14 job.now)) in out.new ≡ sets out.old place (header14_with total (length ks) ++ flat (record_at job.now.source.now job.now.at total ends.now) ks) }
{
    let n = number::u32_at(job.source, job.at + 6) as usize;
    let count = format14_selectors::count_records(ends, n);
    format14_selectors::put_header(out, place, total as u32, count as u32);
    format14_selectors::copy_records(out, place + 10, job.source, job.at, total, ends, n);
}

// Writes the tables that are written at their own place, from the last to the first, so that they end at `stop`.
fn copy_var_selector_record_uvs_tables(
    out: &mut [u8],
    stop: usize,
    job: &Lent14,
    flags: &mut [u8],
    ends: &[usize],
)
    requires kept_in_bounds { length job.now.kept.now ≤ length flags.old }
    requires ends { let g = lent_job14 job.now in Ends (slot g) (2 * selector_records g) ends.now × Stops (slot g) (2 * selector_records g) stop out.old }
    ensures { let g = lent_job14 job.now in out.new ≡ ends_at stop out.old (concat (written_from (slot g) (2 * selector_records g) 0)) }
{
    let mut tail = 0;
    for k in (0..format14_tables::count_tables(job.source, job.at)).rev() {
        let far = ends[k];
        if far > tail {
            format14_tables::copy_table(out, stop - far, job, flags, k);
            tail = far;
        }
    }
}

// Writes the new subtable at `place`; `ends` is what `size` left, and the flags are work room.
pub fn serialize(
    out: &mut [u8],
    place: usize,
    job: &Lent14,
    flags: &mut [u8],
    ends: &[usize],
    total: usize,
)
    requires kept_in_bounds { length job.now.kept.now ≤ length flags.old }
    requires ends { let g = lent_job14 job.now in Ends (slot g) (2 * selector_records g) ends.now × (total ≡ length_of14 (rows g)) }
    requires room { place + total ≤ length out.old }
    ensures { out.new ≡ sets out.old place (format14 (rows (lent_job14 job.now))) }
{
    put_front(out, place, job, ends, total);
    copy_var_selector_record_uvs_tables(out, place + total, job, flags, ends);
}
