// What becomes of each record of a source: a walk in source order, with what earlier records came to. A record that no earlier table serves
// makes its own.
// The work room is four slices and no struct of them: a slice that is lent keeps its length, which each contract would have to promise of a struct.
#![tactic(auto)]

ghost use Rattle.plan_listing.specs.Lent.{lent_job};
ghost use Rattle.std.specs.Prelude.{◌≡◌, true, ◌*◌, ◌<◌, ◌≤◌, length};
ghost use Rattle.source_header.specs.Header.{record_count, offset_of};
ghost use Rattle.source_records.specs.Records.{retained, Placed};
ghost use Rattle.format4.specs.Size.{size_of4};
ghost use Rattle.format12.specs.Format12.{size_of12};
ghost use Rattle.format14.specs.Selectors.{selector_records};
ghost use Rattle.format14.specs.ByNumber.{slot, Readable};
ghost use Rattle.format14.specs.Ends.{Ends};
ghost use Rattle.format14.specs.Format14.{length_in, outcome14};
ghost use Rattle.plan.specs.declared.Outcome.TheVariants.{Made};
ghost use Rattle.plan.specs.Sizes.{Short, Small};
ghost use Rattle.plan.specs.Covered.{covered};
ghost use Rattle.plan.specs.CoveredFlags.{CoveredRoom};
ghost use Rattle.plan.specs.Fresh.{listed_of, job14_of, by4, by14, fresh};
ghost use Rattle.plan.specs.Making.{Leads, Short4, Ready};
ghost use Rattle.plan.specs.Plan.{retained_outcome, outcome_of, plan};
ghost use Rattle.plan.specs.Prepared.{Prepared};
ghost use Rattle.plan.specs.Notes.{outcomes_in, Fronted, Endings, Notebook, Leaves, Turned, Stays};
ghost use Rattle.plan.specs.Earlier.{Earlier, Tells};
ghost use Rattle.number.specs.Limits.{records_max};

use format14::Lent14;
use plan::{Notes, Outcome, Why};
use plan_listing::Job;
use source::Kind;

// ---- a record that no earlier table serves

fn of_size4(size: format4::Size4) -> Outcome
    requires { Short4 size }
    ensures { (result ≡ by4 size) × Short result }
{
    match size {
        format4::Size4::Empty => Outcome::LeftOut(Why::Empty),
        format4::Size4::TooLong => Outcome::LeftOut(Why::TooLong),
        format4::Size4::Fits(n) => Outcome::Made(16 + 8 * n.segments + 2 * n.glyphs),
    }
}

fn of_outcome14(outcome: format14::Outcome14) -> Outcome
    requires { length_in outcome < 4294967296 }
    ensures { (result ≡ by14 outcome) × Short result }
{
    match outcome {
        format14::Outcome14::Refused8 => Outcome::BadMapping,
        format14::Outcome14::Empty => Outcome::LeftOut(Why::Empty),
        format14::Outcome14::Length(n) => Outcome::Made(n),
    }
}

fn fresh4(
    job: &Job,
    k: usize,
    flags: &mut [u8],
    tocodes: &mut [u32],
    toglyphs: &mut [u16],
    notes: &mut Notes,
) -> Outcome
    requires ready { Ready (lent_job job.now) k flags.old tocodes.old toglyphs.old }
    requires leads { Leads job.now.source.now k 4 }
    requires fronted_before { (k < records_max) × Fronted (lent_job job.now) notes.old }
    ensures value { (result ≡ by4 (size_of4 (listed_of (lent_job job.now) k))) × Short result }
    ensures fronted { Fronted (lent_job job.now) notes.new }
    ensures notes_unchanged { (notes.new.outcomes ≡ notes.old.outcomes) × (notes.new.ends ≡ notes.old.ends) }
{
    let sized = plan_make4::size4(job, k, flags, tocodes, toglyphs);
    notes.fronts[k] = sized.front;
    of_size4(sized.size)
}

fn fresh12(
    job: &Job,
    k: usize,
    flags: &mut [u8],
    tocodes: &mut [u32],
    toglyphs: &mut [u16],
    notes: &mut Notes,
) -> Outcome
    requires ready { Ready (lent_job job.now) k flags.old tocodes.old toglyphs.old }
    requires fronted_before { (k < records_max) × Fronted (lent_job job.now) notes.old }
    ensures value { (result ≡ Made (size_of12 (listed_of (lent_job job.now) k)).bytes) × Short result }
    ensures fronted { Fronted (lent_job job.now) notes.new }
    ensures notes_unchanged { (notes.new.outcomes ≡ notes.old.outcomes) × (notes.new.ends ≡ notes.old.ends) }
{
    let sized = plan_make12::size12(job, k, flags, tocodes, toglyphs);
    notes.fronts[k] = sized.front;
    Outcome::Made(sized.size.bytes)
}

fn fresh14(
    job: &Job,
    k: usize,
    len: usize,
    flags: &mut [u8],
    others: &mut [u8],
    notes: &mut Notes,
) -> Outcome
    requires readable { Readable job.now.source.now (offset_of job.now.source.now k) len job.now.kept.now job.now.requested.now }
    requires placed { Placed job.now.source.now k }
    requires kept_in_bounds { (length job.now.kept.now ≤ length flags.old) × (length job.now.kept.now ≤ length others.old) }
    ensures value { (result ≡ by14 (outcome14 (job14_of (lent_job job.now) k len))) × Short result }
    ensures ends { Ends (slot (job14_of (lent_job job.now) k len)) (2 * selector_records (job14_of (lent_job job.now) k len)) notes.new.ends }
    ensures notes_unchanged { (notes.new.outcomes ≡ notes.old.outcomes) × (notes.new.fronts ≡ notes.old.fronts) }
{
    let lent = Lent14 {
        source: job.source,
        at: source_header::offset_of(job.source, k),
        len,
        kept: job.kept,
        map: job.map,
        requested: job.requested,
    };
    of_outcome14(format14_writer::size(&lent, flags, others, &mut notes.ends))
}

// What becomes of record k if no earlier table serves it, and what its writer may go by.
fn fresh(
    job: &Job,
    flags: &mut [u8],
    others: &mut [u8],
    tocodes: &mut [u32],
    toglyphs: &mut [u16],
    notes: &mut Notes,
    k: usize,
) -> Outcome
    requires ready { Ready (lent_job job.now) k flags.old tocodes.old toglyphs.old }
    requires notebook { Notebook (lent_job job.now) k others.old notes.old }
    ensures value { (result ≡ fresh (lent_job job.now) k) × Short result }
    ensures leaves { Leaves (lent_job job.now) notes.old notes.new }
    ensures turned { Turned (lent_job job.now) k result notes.old notes.new }
{
    match source_records::leads_to(job.source, k) {
        Kind::Format4 { .. } => fresh4(job, k, flags, tocodes, toglyphs, notes),
        Kind::Format12 { .. } => fresh12(job, k, flags, tocodes, toglyphs, notes),
        Kind::Format14 { length, .. } => fresh14(job, k, length, flags, others, notes),
        Kind::Unreadable => Outcome::LeftOut(Why::Skipped),
    }
}

// The same as `fresh`; no subtable is walked again that came to nothing for an earlier record.
fn unserved_outcome(
    job: &Job,
    flags: &mut [u8],
    others: &mut [u8],
    tocodes: &mut [u32],
    toglyphs: &mut [u16],
    notes: &mut Notes,
    k: usize,
) -> Outcome
    requires earlier { Earlier (lent_job job.now) (outcomes_in k notes.old) k }
    requires ready { Ready (lent_job job.now) k flags.old tocodes.old toglyphs.old }
    requires notebook { Notebook (lent_job job.now) k others.old notes.old }
    ensures value { (result ≡ fresh (lent_job job.now) k) × Short result }
    ensures leaves { Leaves (lent_job job.now) notes.old notes.new }
    ensures turned { Turned (lent_job job.now) k result notes.old notes.new }
{
    let r = plan_outcomes::spent(job.source, &notes.outcomes, k);
    if r < k {
        return notes.outcomes[r];
    }
    fresh(job, flags, others, tocodes, toglyphs, notes, k)
}

// ---- any record

// Whether record k is covered; where an earlier record is of its pair and offset, that one tells.
fn is_dropped(job: &Job, k: usize, flags: &mut [u8], others: &mut [u8], notes: &Notes) -> bool
    requires covered_room { CoveredRoom job.now.source.now (record_count job.now.source.now) k (length job.now.map.now) job.now.kept.now flags.old others.old }
    requires tells { Tells job.now.source.now (length job.now.map.now) job.now.kept.now (outcomes_in k notes.now) k }
    ensures { result ≡ covered job.now.source.now (length job.now.map.now) job.now.kept.now k }
{
    let s = job.source;
    let r = plan_outcomes::twin(s, k);
    if r < k {
        return plan_outcomes::is_covered(notes.outcomes[r]);
    }
    let m = source_header::record_count(s);
    plan_covered::can_drop_format12(s, m, k, job.map.len() as u32, job.kept, flags, others)
}

fn retained_outcome(
    job: &Job,
    flags: &mut [u8],
    others: &mut [u8],
    tocodes: &mut [u32],
    toglyphs: &mut [u16],
    notes: &mut Notes,
    k: usize,
) -> Outcome
    requires earlier { Earlier (lent_job job.now) (outcomes_in k notes.old) k }
    requires ready { Ready (lent_job job.now) k flags.old tocodes.old toglyphs.old }
    requires notebook { Notebook (lent_job job.now) k others.old notes.old }
    requires covered_room { CoveredRoom job.now.source.now (record_count job.now.source.now) k (length job.now.map.now) job.now.kept.now flags.old others.old }
    requires k_retained { retained job.now.source.now k ≡ true }
    ensures value { (result ≡ retained_outcome (lent_job job.now) (outcomes_in k notes.old) k) × Short result }
    ensures leaves { Leaves (lent_job job.now) notes.old notes.new }
    ensures stays { Stays (lent_job job.now) (outcomes_in k notes.old) k result notes.old notes.new }
{
    if is_dropped(job, k, flags, others, notes) {
        return Outcome::LeftOut(Why::Covered);
    }
    let r = plan_outcomes::server(job.source, &notes.outcomes, k);
    if r < k {
        return Outcome::Served(r);
    }
    unserved_outcome(job, flags, others, tocodes, toglyphs, notes, k)
}

// What becomes of record k, where the notes hold what became of those before it.
fn outcome_of(
    job: &Job,
    flags: &mut [u8],
    others: &mut [u8],
    tocodes: &mut [u32],
    toglyphs: &mut [u16],
    notes: &mut Notes,
    k: usize,
) -> Outcome
    requires earlier { Earlier (lent_job job.now) (outcomes_in k notes.old) k }
    requires ready { Ready (lent_job job.now) k flags.old tocodes.old toglyphs.old }
    requires notebook { Notebook (lent_job job.now) k others.old notes.old }
    requires covered_room { CoveredRoom job.now.source.now (record_count job.now.source.now) k (length job.now.map.now) job.now.kept.now flags.old others.old }
    ensures value { (result ≡ outcome_of (lent_job job.now) (outcomes_in k notes.old) k) × Short result }
    ensures leaves { Leaves (lent_job job.now) notes.old notes.new }
    ensures stays { Stays (lent_job job.now) (outcomes_in k notes.old) k result notes.old notes.new }
{
    if source_retained::retain_encoding_record_for_subset(job.source, k) {
        return retained_outcome(job, flags, others, tocodes, toglyphs, notes, k);
    }
    Outcome::LeftOut(Why::NotRetained)
}

// Notes what becomes of each record, and what the writer of its table may go by; the four slices before the notes are work room.
pub fn plan(
    job: &Job,
    flags: &mut [u8],
    others: &mut [u8],
    tocodes: &mut [u32],
    toglyphs: &mut [u16],
    notes: &mut Notes,
)
    requires prepared { Prepared (lent_job job.now) flags.old others.old tocodes.old toglyphs.old }
    requires fronted { Fronted (lent_job job.now) notes.old }
    ensures planned { let os = outcomes_in (record_count job.now.source.now) notes.new in (os ≡ plan (lent_job job.now)) × Small os }
    ensures fronted_after { Fronted (lent_job job.now) notes.new }
    ensures endings { let m = record_count job.now.source.now in Endings (lent_job job.now) (outcomes_in m notes.new) m notes.new }
{
    for k in 0..source_header::record_count(job.source) {
        let outcome = outcome_of(job, flags, others, tocodes, toglyphs, notes, k);
        notes.note(k, outcome);
    }
}
