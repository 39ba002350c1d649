// The refusals in their order: 1 to 7 of what is lent, 8 and 9 of a plan.
#![tactic(auto)]

ghost use Rattle.plan_listing.specs.Lent.{lent_job};
ghost use Rattle.std.specs.Prelude.{◌≡◌, ◌<◌, length};
ghost use Rattle.std.specs.List.{list_any};
ghost use Rattle.laws.specs.Choice.{either};
ghost use Rattle.source_records.specs.Records.{Counted, leads_to_format, Placed};
ghost use Rattle.result.specs.Refusal.{early_refusal, late_refusal, refusal_told};
ghost use Rattle.cmap_refusals.specs.Refusing.{list_refusal, source_refusal, format_refusal};
ghost use Rattle.plan.specs.Outcomes.{is_bad};
ghost use Rattle.plan.specs.Plan.{refused8, refused9, made_plain};

use plan::Outcome;
use plan_listing::Job;
use result::Refusal;

// Refusals 1 to 4. That the points rise, which 3 asks for, and the bounds of n, which 4 asks for, are known by then.
fn list_refusal(job: &Job) -> Result<(), Refusal>
    ensures { refusal_told result ≡ list_refusal (lent_job job.now) }
{
    let n = job.map.len();
    if lists_checks::bad_sizes(
        job.source.len(),
        job.codes.len(),
        job.glyphs.len(),
        job.kept.len(),
        n,
        job.requested.len(),
    ) {
        return Err(Refusal::BadSizes);
    }
    if lists_checks::bad_pairs(job.codes, job.glyphs) {
        return Err(Refusal::BadPairs);
    }
    if lists_checks::bad_kept(job.kept, job.codes) {
        return Err(Refusal::BadKept);
    }
    if lists_checks::bad_requested(n, job.requested) {
        return Err(Refusal::BadRequested);
    }
    Ok(())
}

// Refusals 6 and 7.
fn format_refusal(s: &[u8], m: usize) -> Result<(), Refusal>
    requires { Counted s.now m }
    ensures { refusal_told result ≡ format_refusal s.now }
{
    if source_retained::lacks_bmp(s, m) {
        return Err(Refusal::LacksBmp);
    }
    if source_retained::lacks_full(s, m) {
        return Err(Refusal::LacksFull);
    }
    Ok(())
}

// Refusals 5 to 7.
fn source_refusal(s: &[u8]) -> Result<(), Refusal>
    ensures { refusal_told result ≡ source_refusal s.now }
{
    match source_header::header_of(s) {
        None => Err(Refusal::BadHeader),
        Some(m) => format_refusal(s, m),
    }
}

// Refusals 1 to 7.
#[tactic(auto, using(std::proofs::lemmas::Grind::common_steps, std::proofs::lemmas::Result::err_from_is_err_and, crate::proofs::RefusingLaws::early_by))]
pub fn early_refusal(job: &Job) -> Result<(), Refusal>
    ensures { refusal_told result ≡ early_refusal (lent_job job.now) }
{
    list_refusal(job)?;
    source_refusal(job.source)
}

// Whether a mapping of some record names a missing glyph.
fn some_bad(outcomes: &[Outcome]) -> bool
    ensures { result ≡ list_any is_bad outcomes.now }
{
    outcomes.iter().any(|o| plan_outcomes::is_bad(*o))
}

// Refusal 8.
fn names_missing(outcomes: &[Outcome]) -> bool
    ensures { result ≡ refused8 outcomes.now }
{
    some_bad(outcomes)
}

// Whether record k leads to a format 4 or 12.
fn is_plain(s: &[u8], k: usize) -> bool
    requires { Placed s.now k }
    ensures { result ≡ either (leads_to_format 4 s.now k) (leads_to_format 12 s.now k) }
{
    source_records::leads_to_format(s, k, 4) || source_records::leads_to_format(s, k, 12)
}

// Whether record k made a format 4 or 12 table.
fn made_plain(s: &[u8], outcomes: &[Outcome], k: usize) -> bool
    requires placed { Placed s.now k }
    requires k_in_bounds { k < length outcomes.now }
    ensures { result ≡ made_plain s.now outcomes.now k }
{
    plan_outcomes::is_made(outcomes[k]) && is_plain(s, k)
}

// Refusal 9.
fn lacks_plain(s: &[u8], outcomes: &[Outcome]) -> bool
    requires { Counted s.now (length outcomes.now) }
    ensures { result ≡ refused9 s.now outcomes.now }
{
    !laws::some(outcomes.len(), |k| made_plain(s, outcomes, k))
}

// Refusals 8 and 9 of a plan that has these outcomes.
pub fn late_refusal(s: &[u8], outcomes: &[Outcome]) -> Result<(), Refusal>
    requires { Counted s.now (length outcomes.now) }
    ensures { refusal_told result ≡ late_refusal s.now outcomes.now }
{
    if names_missing(outcomes) {
        return Err(Refusal::NamesMissing);
    }
    if lacks_plain(s, outcomes) {
        return Err(Refusal::LacksPlain);
    }
    Ok(())
}
