// Format 4 subtables of the listed pairs that a record's subtable maps: how long they get, and their bytes.
#![tactic(auto)]

ghost use Rattle.std.specs.Prelude.{◌≡◌, length};
ghost use Rattle.std.proofs.lemmas.List.Edits.{sets};
ghost use Rattle.plan_listing.specs.Lent.{lent_job};
ghost use Rattle.format4.specs.Format4.{format4};
ghost use Rattle.format4.specs.Size.{size_of4};
ghost use Rattle.plan.specs.Fresh.{listed_of};
ghost use Rattle.plan.specs.Making.{PairsRoom, Leads, Fronts};
ghost use Rattle.plan_make4.specs.Fits4.{Fits4, OfBytes};

use format4::Size4;
use plan_collecting::Measured;
use plan_listing::Job;

// A source is bytes, so format 4 maps only code points of 16 bits. Nothing is run: of a slice in a struct a proof isn't told that its
// numbers are bytes, of one that is passed it is.
fn is_bytes(_source: &[u8])
    ensures { OfBytes _source.now }
{}

// The size of the format 4 subtable that record k makes.
pub fn size4(
    job: &Job,
    k: usize,
    flags: &mut [u8],
    tocodes: &mut [u32],
    toglyphs: &mut [u16],
) -> Measured<Size4>
    requires pairs_room { PairsRoom (lent_job job.now) k flags.old tocodes.old toglyphs.old }
    requires leads { Leads job.now.source.now k 4 }
    ensures size_value { result.size ≡ size_of4 (listed_of (lent_job job.now) k) }
    ensures fronts { Fronts (lent_job job.now) k result.front }
{
    is_bytes(job.source);
    let listed = plan_collecting::lend_pairs(job, k, flags, tocodes, toglyphs);
    Measured {
        size: format4_size::format4_size(listed.codes, listed.glyphs),
        front: listed.front,
    }
}

// Writes the format 4 subtable that record k makes. Where its plan notes a front, no pairs are listed.
pub fn write4(
    out: &mut [u8],
    at: usize,
    language: u32,
    job: &Job,
    k: usize,
    front: usize,
    flags: &mut [u8],
    tocodes: &mut [u32],
    toglyphs: &mut [u16],
)
    requires pairs_room { PairsRoom (lent_job job.now) k flags.old tocodes.old toglyphs.old }
    requires fronts { Fronts (lent_job job.now) k front }
    requires leads { Leads job.now.source.now k 4 }
    requires fits4 { Fits4 (listed_of (lent_job job.now) k) at (length out.old) }
    ensures { out.new ≡ sets out.old at (format4 language (listed_of (lent_job job.now) k)) }
{
    is_bytes(job.source);
    let listed = plan_collecting::lend_noted_pairs(job, k, front, flags, tocodes, toglyphs);
    if let Size4::Fits(counter) = format4_size::format4_size(listed.codes, listed.glyphs) {
        format4_writer::write_format4(out, at, language, listed.codes, listed.glyphs, counter);
    }
}
