// What a plan comes to: the answer, with refusals 8, 9 and 10, then length and record count of the result; and a record's fate.
#![tactic(auto)]

ghost use Rattle.std.specs.Prelude.{◌≡◌, ◌<◌, length};
ghost use Rattle.result.specs.Layout.{place_by_sizes};
ghost use Rattle.result_layout.specs.Counts.{OutcomesTold};
ghost use Rattle.cmap_promise.specs.declared.FateKind.TheVariants.{WrittenAt};
ghost use Rattle.cmap_promise.specs.Fates.{left_out_as, kind_of, no_fate};
ghost use Rattle.cmap_concluding.specs.Concluding.{Concludes, answer_by};
ghost use Rattle.cmap_concluding.specs.Found.{fate_by, ServersThere};
ghost use Rattle.plan.specs.Outcomes.{at};

use cmap_promise::{Answer, Fate, FateKind, Unwritten, Written};
use plan::{Outcome, Why};
use result::Refusal;

// ---- the answer

// The answer, where the output has room for so many bytes.
pub fn answer_by(s: &[u8], outcomes: &[Outcome], room: usize) -> Answer
    requires { Concludes s.now outcomes.now }
    ensures { result ≡ answer_by s.now outcomes.now room }
{
    cmap_refusals::late_refusal(s, outcomes)?;
    let records = result_layout::count_written(outcomes);
    let bytes = result_layout::result_length(outcomes, records);
    if room < bytes {
        return Err(Unwritten::NoRoom(bytes));
    }
    Ok(Written { bytes, records })
}

// ---- a fate

// A fate of no record: platform and encoding are 0.
pub fn no_fate(kind: FateKind) -> Fate
    ensures { result ≡ no_fate kind }
{
    Fate {
        platform: 0,
        encoding: 0,
        kind,
    }
}

fn left_out_as(why: Why) -> FateKind
    ensures { result ≡ left_out_as why }
{
    match why {
        Why::NotRetained => FateKind::NotRetained,
        Why::Skipped => FateKind::Skipped,
        Why::Empty => FateKind::Empty,
        Why::TooLong => FateKind::TooLong,
        Why::Covered => FateKind::Covered,
    }
}

fn written_at(outcomes: &[Outcome], k: usize) -> FateKind
    requires outcomes_told { OutcomesTold outcomes.now }
    requires k_in_bounds { k < length outcomes.now }
    ensures { result ≡ WrittenAt (place_by_sizes outcomes.now k) }
{
    let count = result_layout::count_written(outcomes);
    FateKind::WrittenAt(result_layout::offset_of(outcomes, k, count))
}

// What became of record k.
fn kind_of(outcomes: &[Outcome], k: usize) -> FateKind
    requires servers_there { ServersThere outcomes.now }
    requires k_in_bounds { k < length outcomes.now }
    ensures { let os = outcomes.now in result ≡ kind_of (place_by_sizes os) (at os k) k }
{
    match outcomes[k] {
        Outcome::LeftOut(why) => left_out_as(why),
        Outcome::BadMapping => FateKind::Refused(Refusal::NamesMissing),
        Outcome::Served(by) => written_at(outcomes, by),
        Outcome::Made(_) => written_at(outcomes, k),
    }
}

// Refusals 8 and 9, then what became of record k.
pub fn fate_by(s: &[u8], outcomes: &[Outcome], k: usize) -> Fate
    requires concludes { Concludes s.now outcomes.now }
    requires servers_there { ServersThere outcomes.now }
    ensures { result ≡ fate_by s.now outcomes.now k }
{
    if let Err(refusal) = cmap_refusals::late_refusal(s, outcomes) {
        return no_fate(FateKind::Refused(refusal));
    }
    if outcomes.len() <= k {
        return no_fate(FateKind::NoSuchRecord);
    }
    let record = source_records::encoding_record(s, k);
    let kind = kind_of(outcomes, k);
    Fate {
        platform: record.platform,
        encoding: record.encoding,
        kind,
    }
}
