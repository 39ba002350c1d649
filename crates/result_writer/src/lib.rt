// Writing a result by a plan: header, records, and the tables that records make, each by the kind of its subtable.
#![tactic(auto)]

ghost use Rattle.plan_listing.specs.Lent.{lent_job};
ghost use Rattle.std.specs.Prelude.{◌≡◌, ◌++◌, ◌+◌, ◌*◌, ◌<◌, ◌≤◌, length};
ghost use Rattle.std.proofs.lemmas.List.Edits.{sets};
ghost use Rattle.number.specs.BigEndian.{enc};
ghost use Rattle.source_header.specs.Header.{record_count};
ghost use Rattle.plan.specs.Fresh.{table_of};
ghost use Rattle.plan.specs.Making.{Ready};
ghost use Rattle.plan.specs.Notes.{outcomes_in};
ghost use Rattle.plan.specs.Plan.{plan};
ghost use Rattle.result.specs.Result.{record_bytes, records_from, tables_start, tables_from, result_of};
ghost use Rattle.result.specs.Layout.{place_by_sizes, result_length};
ghost use Rattle.result_writer.specs.RecordParts.{Recorded, Laid};
ghost use Rattle.result_writer.specs.TableParts.{TableRoom, Known};
ghost use Rattle.result_writer.specs.Writing.{WritesPlan};
ghost use Rattle.number.specs.Limits.{records_max};

use format14::Lent14;
use plan::{Notes, Outcome};
use plan_listing::Job;
use source::Kind;

// ---- header and records

fn put_header(out: &mut [u8], count: usize)
    requires room { 4 ≤ length out.old }
    requires count_le_records_max { count ≤ records_max }
    ensures { out.new ≡ sets out.old 0 (enc 2 0 ++ enc 2 count) }
{
    number_writer::put_u16(out, 0, 0);
    number_writer::put_u16(out, 2, count as u32);
}

fn put_numbers(out: &mut [u8], place: usize, platform: u32, encoding: u32, offset: usize)
    requires { place + 8 ≤ length out.old }
    ensures { out.new ≡ sets out.old place (enc 2 platform ++ (enc 2 encoding ++ enc 4 offset)) }
{
    number_writer::put_u16(out, place, platform);
    number_writer::put_u16(out, place + 2, encoding);
    number_writer::put_u32(out, place + 4, (offset % 4294967296) as u32);
}

// Writes record k, with the offset of the table that serves it.
fn serialize_encoding_record(
    out: &mut [u8],
    place: usize,
    s: &[u8],
    outcomes: &[Outcome],
    k: usize,
    count: usize,
)
    requires recorded { Recorded s.now outcomes.now k count }
    requires room { place + 8 ≤ length out.old }
    ensures { let os = outcomes.now in out.new ≡ sets out.old place (record_bytes (place_by_sizes os) s.now os k) }
{
    let record = source_records::encoding_record(s, k);
    let maker = plan_outcomes::maker_of(outcomes[k], k);
    let offset = result_layout::offset_of(outcomes, maker, count);
    put_numbers(out, place, record.platform, record.encoding, offset);
}

// Writes the records behind the header.
fn serialize_encoding_records(out: &mut [u8], s: &[u8], outcomes: &[Outcome], count: usize)
    requires laid { Laid s.now outcomes.now count }
    requires room { 4 + 8 * count ≤ length out.old }
    ensures { let os = outcomes.now in out.new ≡ sets out.old 4 (records_from (place_by_sizes os) s.now os (length os) 0) }
{
    let mut place = 4;
    for (k, outcome) in outcomes.iter().enumerate() {
        if plan_outcomes::is_written(*outcome) {
            serialize_encoding_record(out, place, s, outcomes, k, count);
            place += 8;
        }
    }
}

// ---- tables

// A table to be written: the record that makes it, where it goes, and how many bytes it has.
#[derive(Clone, Copy)]
pub struct Table {
    pub record: usize,
    pub place: usize,
    pub size: usize,
}

// Writes the table by what planning noted of its record; the flags and the two lists after them are work room.
fn write_table(
    out: &mut [u8],
    table: Table,
    job: &Job,
    flags: &mut [u8],
    tocodes: &mut [u32],
    toglyphs: &mut [u16],
    notes: &Notes,
)
    requires ready { Ready (lent_job job.now) table.record flags.old tocodes.old toglyphs.old }
    requires room { TableRoom (lent_job job.now) table.record table.place table.size (length out.old) }
    requires known { Known (lent_job job.now) table.record notes.now }
    ensures { out.new ≡ sets out.old table.place (table_of (lent_job job.now) table.record) }
{
    let k = table.record;
    let place = table.place;
    let s = job.source;
    let front = notes.fronts[k];
    match source_records::leads_to(s, k) {
        Kind::Format4 { language, .. } => plan_make4::write4(
            out, place, language, job, k, front, flags, tocodes, toglyphs,
        ),
        Kind::Format12 { language, .. } => plan_make12::write12(
            out, place, language, job, k, front, flags, tocodes, toglyphs,
        ),
        Kind::Format14 { length, .. } => {
            let lent = Lent14 {
                source: s,
                at: source_header::offset_of(s, k),
                len: length,
                kept: job.kept,
                map: job.map,
                requested: job.requested,
            };
            format14_writer::serialize(out, place, &lent, flags, &notes.ends, table.size)
        }
        Kind::Unreadable => {}
    }
}

// Writes the tables behind the records, the one made last first.
fn write_tables(
    out: &mut [u8],
    job: &Job,
    flags: &mut [u8],
    tocodes: &mut [u32],
    toglyphs: &mut [u16],
    notes: &Notes,
    count: usize,
)
    requires writes_plan { WritesPlan (lent_job job.now) notes.now count flags.old tocodes.old toglyphs.old }
    requires room { result_length (outcomes_in (record_count job.now.source.now) notes.now) ≤ length out.old }
    ensures { let m = record_count job.now.source.now in let os = outcomes_in m notes.now in
        out.new ≡ sets out.old (tables_start os) (tables_from (lent_job job.now) os m 0) }
{
    let mut place = 4 + 8 * count;
    for k in (0..source_header::record_count(job.source)).rev() {
        if let Outcome::Made(size) = notes.outcomes[k] {
            let table = Table {
                record: k,
                place,
                size,
            };
            write_table(out, table, job, flags, tocodes, toglyphs, notes);
            place += size;
        }
    }
}

// ---- the whole

// Writes the whole result by what planning noted, with so many records; the flags and the two lists after them are work room.
pub fn serialize_cmap(
    out: &mut [u8],
    job: &Job,
    flags: &mut [u8],
    tocodes: &mut [u32],
    toglyphs: &mut [u16],
    notes: &Notes,
    count: usize,
)
    requires writes_plan { WritesPlan (lent_job job.now) notes.now count flags.old tocodes.old toglyphs.old }
    requires room { result_length (outcomes_in (record_count job.now.source.now) notes.now) ≤ length out.old }
    ensures { out.new ≡ sets out.old 0 (result_of (lent_job job.now) (plan (lent_job job.now))) }
{
    let s = job.source;
    put_header(out, count);
    let outcomes = &notes.outcomes[..source_header::record_count(s)];
    serialize_encoding_records(out, s, outcomes, count);
    write_tables(out, job, flags, tocodes, toglyphs, notes, count);
}
