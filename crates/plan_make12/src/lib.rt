// Format 12 subtables of the listed pairs that a record's subtable maps: how long they get, and their bytes.
#![tactic(auto)]

ghost use Rattle.std.specs.Prelude.{◌≡◌, ◌+◌, ◌≤◌, length};
ghost use Rattle.std.proofs.lemmas.List.Edits.{sets};
ghost use Rattle.number.specs.Limits.{pairs_max};
ghost use Rattle.plan_listing.specs.Lent.{lent_job};
ghost use Rattle.plan_listing.specs.Listing.{code_column, glyph_column};
ghost use Rattle.format12.specs.Format12.{format12, size_of12};
ghost use Rattle.plan.specs.Fresh.{listed_of};
ghost use Rattle.plan.specs.Making.{PairsRoom, Fronts};

use format12::Size12;
use plan_collecting::Measured;
use plan_listing::Job;

// The size of the format 12 subtable that record k makes.
pub fn size12(
    job: &Job,
    k: usize,
    flags: &mut [u8],
    tocodes: &mut [u32],
    toglyphs: &mut [u16],
) -> Measured<Size12>
    requires { PairsRoom (lent_job job.now) k flags.old tocodes.old toglyphs.old }
    ensures size_value { result.size ≡ size_of12 (listed_of (lent_job job.now) k) }
    ensures fronts { Fronts (lent_job job.now) k result.front }
{
    let listed = plan_collecting::lend_pairs(job, k, flags, tocodes, toglyphs);
    Measured {
        size: format12::format12_size(listed.codes, listed.glyphs),
        front: listed.front,
    }
}

// Measures and writes the format 12 subtable of the listed pairs of record k, lent as two columns.
fn write12_listed(
    out: &mut [u8],
    at: usize,
    language: u32,
    job: &Job,
    k: usize,
    codes: &[u32],
    glyphs: &[u16],
)
    requires few { length job.now.codes.now ≤ pairs_max }
    requires columns { let ps = listed_of (lent_job job.now) k in (codes.now ≡ code_column ps) × (glyphs.now ≡ glyph_column ps) }
    requires room { at + length (format12 language (listed_of (lent_job job.now) k)) ≤ length out.old }
    ensures { out.new ≡ sets out.old at (format12 language (listed_of (lent_job job.now) k)) }
{
    let size = format12::format12_size(codes, glyphs);
    format12_writer::write_format12(out, at, language, codes, glyphs, size.groups);
}

// Writes the format 12 subtable that record k makes. Where its plan notes a front, no pairs are listed.
pub fn write12(
    out: &mut [u8],
    at: usize,
    language: u32,
    job: &Job,
    k: usize,
    front: usize,
    flags: &mut [u8],
    tocodes: &mut [u32],
    toglyphs: &mut [u16],
)
    requires pairs_room { PairsRoom (lent_job job.now) k flags.old tocodes.old toglyphs.old }
    requires fronts { Fronts (lent_job job.now) k front }
    requires room { at + length (format12 language (listed_of (lent_job job.now) k)) ≤ length out.old }
    ensures { out.new ≡ sets out.old at (format12 language (listed_of (lent_job job.now) k)) }
{
    let listed = plan_collecting::lend_noted_pairs(job, k, front, flags, tocodes, toglyphs);
    write12_listed(out, at, language, job, k, listed.codes, listed.glyphs);
}
