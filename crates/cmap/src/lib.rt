// A cmap cut down to the listed code points, and what became of each of its records.
#![tactic(auto)]

ghost use Rattle.plan_listing.specs.Lent.{lent_job};
ghost use Rattle.std.specs.Prelude.{◌≡◌, length};
ghost use Rattle.cmap_promise.specs.Cmap.{answer_of, output_of};
ghost use Rattle.cmap_promise.specs.Fates.{fate_of};

use cmap_promise::{Answer, Fate, FateKind};
use plan_listing::Job;

// Cuts the source down to the listed pairs and what is kept. Sizes first, then bytes: a refusal writes nothing.
// A refusal is handed on by `if let`: the check names the goals of a `?` by what stands before it, so that an edit there would be refused for its form.
pub fn subset(job: &Job, out: &mut [u8]) -> Answer
    ensures value { result ≡ answer_of (lent_job job.now) (length out.old) }
    ensures out_after { out.new ≡ output_of (lent_job job.now) out.old }
{
    if let Err(refusal) = cmap_refusals::early_refusal(job) {
        return Err(refusal.into());
    }
    cmap_rooms::carry_out(job, out)
}

// What becomes of record k, after checks 1 to 9.
pub fn fate_of(job: &Job, k: usize) -> Fate
    ensures { result ≡ fate_of (lent_job job.now) k }
{
    if let Err(refusal) = cmap_refusals::early_refusal(job) {
        return cmap_concluding::no_fate(FateKind::Refused(refusal));
    }
    cmap_rooms::tell(job, k)
}
