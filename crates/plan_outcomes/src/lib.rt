// What became of records: tests of an outcome, and which earlier record serves or tells of one.
#![tactic(auto)]

ghost use Rattle.std.specs.Prelude.{◌≡◌, ◌<◌, ◌≤◌, length, take};
ghost use Rattle.source_records.specs.Records.{Placed};
ghost use Rattle.plan.specs.Outcomes.{is_made, is_bad, is_written, maker_of, serves, server};
ghost use Rattle.plan.specs.Sizes.{made_size, BothPlaced};
ghost use Rattle.plan.specs.Twins.{is_covered, came_to_nothing, is_twin, twin, is_spent, spent};
ghost use Rattle.number.specs.Limits.{records_max};

use plan::{Outcome, Why};

// ---- what an outcome says

pub fn is_made(outcome: Outcome) -> bool
    ensures { result ≡ is_made outcome }
{
    matches!(outcome, Outcome::Made(_))
}

pub fn is_written(outcome: Outcome) -> bool
    ensures { result ≡ is_written outcome }
{
    matches!(outcome, Outcome::Served(_) | Outcome::Made(_))
}

pub fn is_bad(outcome: Outcome) -> bool
    ensures { result ≡ is_bad outcome }
{
    matches!(outcome, Outcome::BadMapping)
}

pub fn size_of(outcome: Outcome) -> usize
    ensures { result ≡ made_size outcome }
{
    match outcome {
        Outcome::Made(size) => size,
        _ => 0,
    }
}

// The record whose table record k is written with.
pub fn maker_of(outcome: Outcome, k: usize) -> usize
    ensures { result ≡ maker_of outcome k }
{
    match outcome {
        Outcome::Served(by) => by,
        _ => k,
    }
}

pub fn is_covered(outcome: Outcome) -> bool
    ensures { result ≡ is_covered outcome }
{
    matches!(outcome, Outcome::LeftOut(Why::Covered))
}

fn came_to_nothing(outcome: Outcome) -> bool
    ensures { result ≡ came_to_nothing outcome }
{
    matches!(
        outcome,
        Outcome::LeftOut(Why::Skipped | Why::Empty | Why::TooLong) | Outcome::BadMapping
    )
}

// ---- what earlier records tell

// Whether the table that record r made, if it made one, is of record k's format.
fn serves(s: &[u8], outcomes: &[Outcome], k: usize, r: usize) -> bool
    requires both_placed { BothPlaced s.now k r }
    requires r_lt_k { (r < k) × (k ≤ length outcomes.now) }
    ensures { result ≡ serves s.now (take k outcomes.now) k r }
{
    is_made(outcomes[r])
        && source_records::leads_to_format(s, r, source::format_of(source_records::leads_to(s, k)))
}

// The first earlier record whose table serves record k; k where there is none.
pub fn server(s: &[u8], outcomes: &[Outcome], k: usize) -> usize
    requires placed { Placed s.now k }
    requires k_lt_records_max { (k < records_max) × (k ≤ length outcomes.now) }
    ensures { result ≡ server s.now (take k outcomes.now) k }
{
    laws::first(k, |r| serves(s, outcomes, k, r))
}

// Whether record r has record k's pair and offset.
fn is_twin(s: &[u8], k: usize, r: usize) -> bool
    requires { BothPlaced s.now k r }
    ensures { result ≡ is_twin s.now k r }
{
    let record = source_records::encoding_record(s, k);
    source_records::is_pair(s, r, record.platform, record.encoding)
        && source_header::offset_of(s, r) == record.offset
}

// The first earlier record of record k's pair and offset; k where there is none.
pub fn twin(s: &[u8], k: usize) -> usize
    requires placed { Placed s.now k }
    requires k_lt_records_max { k < records_max }
    ensures { result ≡ twin s.now k }
{
    laws::first(k, |r| is_twin(s, k, r))
}

// Whether record r leads to the subtable of record k, and that came to nothing.
fn is_spent(s: &[u8], outcomes: &[Outcome], k: usize, r: usize) -> bool
    requires both_placed { BothPlaced s.now k r }
    requires r_lt_k { (r < k) × (k ≤ length outcomes.now) }
    ensures { result ≡ is_spent s.now (take k outcomes.now) k r }
{
    came_to_nothing(outcomes[r]) && source_header::offset_of(s, r) == source_header::offset_of(s, k)
}

// The first such record before k; k where there is none.
pub fn spent(s: &[u8], outcomes: &[Outcome], k: usize) -> usize
    requires placed { Placed s.now k }
    requires k_lt_records_max { (k < records_max) × (k ≤ length outcomes.now) }
    ensures { result ≡ spent s.now (take k outcomes.now) k }
{
    laws::first(k, |r| is_spent(s, outcomes, k, r))
}
