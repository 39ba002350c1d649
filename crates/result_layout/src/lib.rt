// Where the tables of a result stand: how many records are written, and how long their tables are.
#![tactic(auto)]

ghost use Rattle.std.specs.Prelude.{◌≡◌, ◌+◌, ◌-◌, ◌*◌, ◌≤◌, ◌<◌, ◌^◌, length, sum_by};
ghost use Rattle.plan.specs.Sizes.{made_size};
ghost use Rattle.result.specs.Result.{written_count};
ghost use Rattle.result.specs.Layout.{sizes_from, place_by_sizes, result_length};
ghost use Rattle.result_layout.specs.Counts.{OutcomesTold, Counts};
ghost use Rattle.number.specs.Limits.{records_max};

use plan::Outcome;

// How many of the records are written.
pub fn count_written(outcomes: &[Outcome]) -> usize
    ensures { (result ≡ written_count outcomes.now) × (result ≤ length outcomes.now) }
{
    outcomes
        .iter()
        .filter(|o| plan_outcomes::is_written(**o))
        .count()
}

// The lengths of the tables that these records made, together.
fn add_sizes(outcomes: &[Outcome]) -> usize
    requires { sum_by made_size outcomes.now < 2 ^ 64 }
    ensures { result ≡ sum_by made_size outcomes.now }
{
    outcomes.iter().map(|o| plan_outcomes::size_of(*o)).sum()
}

// The lengths of the tables that the records from k on made, together.
pub fn sizes_from(outcomes: &[Outcome], k: usize) -> usize
    requires outcomes_told { OutcomesTold outcomes.now }
    requires k_in_bounds { k ≤ length outcomes.now }
    ensures { (result ≡ sizes_from outcomes.now (length outcomes.now - k) k) × (result ≤ records_max * 4294967296) }
{
    add_sizes(&outcomes[k..])
}

// Where the table of record k stands, in a result of that many records.
pub fn offset_of(outcomes: &[Outcome], k: usize, count: usize) -> usize
    requires counts { Counts outcomes.now count }
    requires k_in_bounds { k < length outcomes.now }
    ensures { result ≡ place_by_sizes outcomes.now k }
{
    4 + 8 * count + sizes_from(outcomes, k + 1)
}

// The length of the whole result.
pub fn result_length(outcomes: &[Outcome], count: usize) -> usize
    requires { Counts outcomes.now count }
    ensures { result ≡ result_length outcomes.now }
{
    4 + 8 * count + sizes_from(outcomes, 0)
}
