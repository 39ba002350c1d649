// A job that refusals 1 to 7 let pass, worked out in room of its own: a small room where that is enough, since clearing a large one takes longer
// than most jobs.
#![tactic(auto)]

ghost use Rattle.plan_listing.specs.Lent.{lent_job};
ghost use Rattle.std.specs.Prelude.{◌≡◌, ◌≤◌, leb, length};
ghost use Rattle.source_header.specs.Header.{record_count};
ghost use Rattle.laws.specs.Choice.{both};
ghost use Rattle.number.specs.Limits.{kept_max};
ghost use Rattle.plan.specs.Notes.{outcomes_in};
ghost use Rattle.plan.specs.Prepared.{Prepared};
ghost use Rattle.cmap_promise.specs.Cmap.{answer_of, output_of};
ghost use Rattle.cmap_promise.specs.Fates.{fate_of};
ghost use Rattle.cmap_concluding.specs.Concluding.{Passing, answer_by};
ghost use Rattle.cmap_rooms.specs.Rooms.{FitsRoom, Writes};

use cmap_promise::{Answer, Fate};
use number::limits::{KEPT_MAX, PAIRS_MAX};
use plan::Notes;
use plan_listing::Job;

// Room that is enough for most jobs, and quickly cleared.
const SMALL_KEPT: usize = 4096;

const SMALL_PAIRS: usize = 2048;

// Room that is enough for most other jobs.
const MIDDLE_KEPT: usize = 32768;

const MIDDLE_PAIRS: usize = 16384;

// Whether room for so many kept points and pairs is enough.
fn fits(job: &Job, kept: usize, pairs: usize) -> bool
    ensures { result ≡ both (leb (length job.now.kept.now) kept) (leb (length job.now.codes.now) pairs) }
{
    job.kept.len() <= kept && job.codes.len() <= pairs
}

// Whether the small room is enough. Its size is said here, so that no other size passes for it.
fn fits_small(job: &Job) -> bool
    ensures { result ≡ both (leb (length job.now.kept.now) 4096) (leb (length job.now.codes.now) 2048) }
{
    fits(job, SMALL_KEPT, SMALL_PAIRS)
}

// The same of the middle room.
fn fits_middle(job: &Job) -> bool
    ensures { result ≡ both (leb (length job.now.kept.now) 32768) (leb (length job.now.codes.now) 16384) }
{
    fits(job, MIDDLE_KEPT, MIDDLE_PAIRS)
}

// ---- the cut

// Writes the result where the answer is that it is written; the flags and the two lists after them are work room.
fn write_result(
    out: &mut [u8],
    job: &Job,
    flags: &mut [u8],
    tocodes: &mut [u32],
    toglyphs: &mut [u16],
    notes: &Notes,
    answer: Answer,
)
    requires writes { Writes (lent_job job.now) notes.now flags.old tocodes.old toglyphs.old }
    requires answered { answer ≡ answer_by job.now.source.now (outcomes_in (record_count job.now.source.now) notes.now) (length out.old) }
    ensures { out.new ≡ output_of (lent_job job.now) out.old }
{
    if let Ok(written) = answer {
        result_writer::serialize_cmap(out, job, flags, tocodes, toglyphs, notes, written.records);
    }
}

// Plans, answers, and writes the result where nothing refuses it; the four slices before the output are work room.
fn carry_out_on(
    job: &Job,
    flags: &mut [u8],
    others: &mut [u8],
    tocodes: &mut [u32],
    toglyphs: &mut [u16],
    out: &mut [u8],
) -> Answer
    requires passing { Passing (lent_job job.now) }
    requires prepared { Prepared (lent_job job.now) flags.old others.old tocodes.old toglyphs.old }
    ensures value { result ≡ answer_of (lent_job job.now) (length out.old) }
    ensures out_after { out.new ≡ output_of (lent_job job.now) out.old }
{
    let mut notes = Notes::new();
    plan_walk::plan(job, flags, others, tocodes, toglyphs, &mut notes);
    let outcomes = &notes.outcomes[..source_header::record_count(job.source)];
    let answer = cmap_concluding::answer_by(job.source, outcomes, out.len());
    write_result(out, job, flags, tocodes, toglyphs, &notes, answer);
    answer
}

// The same in room of its own. It is a call of its own so that a small job's frame stays small.
#[inline(never)]
fn carry_out_in<const KEPT: usize, const PAIRS: usize>(job: &Job, out: &mut [u8]) -> Answer
    requires few { (PAIRS ≤ KEPT) × (KEPT ≤ kept_max) }
    requires passing { Passing (lent_job job.now) }
    requires fits_room { FitsRoom KEPT PAIRS job.now.codes.now job.now.kept.now }
    ensures value { result ≡ answer_of (lent_job job.now) (length out.old) }
    ensures out_after { out.new ≡ output_of (lent_job job.now) out.old }
{
    let mut flags = [0u8; KEPT];
    let mut others = [0u8; KEPT];
    let mut tocodes = [0u32; PAIRS];
    let mut toglyphs = [0u16; PAIRS];
    carry_out_on(
        job,
        &mut flags,
        &mut others,
        &mut tocodes,
        &mut toglyphs,
        out,
    )
}

// The answer, and the result in the output where it is written.
pub fn carry_out(job: &Job, out: &mut [u8]) -> Answer
    requires { Passing (lent_job job.now) }
    ensures value { result ≡ answer_of (lent_job job.now) (length out.old) }
    ensures out_after { out.new ≡ output_of (lent_job job.now) out.old }
{
    if fits_small(job) {
        return carry_out_in::<SMALL_KEPT, SMALL_PAIRS>(job, out);
    }
    if fits_middle(job) {
        return carry_out_in::<MIDDLE_KEPT, MIDDLE_PAIRS>(job, out);
    }
    carry_out_in::<KEPT_MAX, PAIRS_MAX>(job, out)
}

// ---- a fate

// Plans, and tells what becomes of record k; the four slices before it are work room.
fn tell_on(
    job: &Job,
    flags: &mut [u8],
    others: &mut [u8],
    tocodes: &mut [u32],
    toglyphs: &mut [u16],
    k: usize,
) -> Fate
    requires passing { Passing (lent_job job.now) }
    requires prepared { Prepared (lent_job job.now) flags.old others.old tocodes.old toglyphs.old }
    ensures { result ≡ fate_of (lent_job job.now) k }
{
    let mut notes = Notes::new();
    plan_walk::plan(job, flags, others, tocodes, toglyphs, &mut notes);
    let outcomes = &notes.outcomes[..source_header::record_count(job.source)];
    cmap_concluding::fate_by(job.source, outcomes, k)
}

// The same in room of its own, a call of its own for the same reason.
#[inline(never)]
fn tell_in<const KEPT: usize, const PAIRS: usize>(job: &Job, k: usize) -> Fate
    requires few { (PAIRS ≤ KEPT) × (KEPT ≤ kept_max) }
    requires passing { Passing (lent_job job.now) }
    requires fits_room { FitsRoom KEPT PAIRS job.now.codes.now job.now.kept.now }
    ensures { result ≡ fate_of (lent_job job.now) k }
{
    let mut flags = [0u8; KEPT];
    let mut others = [0u8; KEPT];
    let mut tocodes = [0u32; PAIRS];
    let mut toglyphs = [0u16; PAIRS];
    tell_on(job, &mut flags, &mut others, &mut tocodes, &mut toglyphs, k)
}

// What becomes of record k. The choice of a room is all that it shares with `carry_out`, which hands the output on and has two clauses.
pub fn tell(job: &Job, k: usize) -> Fate
    requires { Passing (lent_job job.now) }
    ensures { result ≡ fate_of (lent_job job.now) k }
{
    if fits_small(job) {
        return tell_in::<SMALL_KEPT, SMALL_PAIRS>(job, k);
    }
    if fits_middle(job) {
        return tell_in::<MIDDLE_KEPT, MIDDLE_PAIRS>(job, k);
    }
    tell_in::<KEPT_MAX, PAIRS_MAX>(job, k)
}
