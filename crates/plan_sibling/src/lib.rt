// The sibling of a format 12 record: the first record of the pair that may cover it and of its language.
#![tactic(auto)]

ghost use Rattle.std.specs.Prelude.{◌≡◌, ◌<◌};
ghost use Rattle.laws.specs.Choice.{both};
ghost use Rattle.source_records.specs.Records.{is_pair, Placed, Counted};
ghost use Rattle.plan.specs.Sibling.{sibling_pair, language_of, speaks, is_sibling, first_sibling};

use source::Kind;

fn language_of(kind: Kind) -> u32
    ensures { result ≡ language_of kind }
{
    match kind {
        Kind::Format4 { language, .. } | Kind::Format12 { language, .. } => language,
        Kind::Format14 { .. } | Kind::Unreadable => 0,
    }
}

fn has_language(wanted: u32, kind: Kind) -> bool
    ensures { result ≡ speaks wanted kind }
{
    match kind {
        Kind::Format4 { language, .. } | Kind::Format12 { language, .. } => language == wanted,
        Kind::Format14 { .. } | Kind::Unreadable => false,
    }
}

fn both_pairs(s: &[u8], k: usize, i: usize, platform: u32, full: u32, bmp: u32) -> bool
    requires placed { Placed s.now k }
    requires placed_2 { Placed s.now i }
    ensures { result ≡ both (is_pair platform full s.now k) (is_pair platform bmp s.now i) }
{
    source_records::is_pair(s, k, platform, full) && source_records::is_pair(s, i, platform, bmp)
}

fn sibling_pair(s: &[u8], k: usize, i: usize) -> bool
    requires placed { Placed s.now k }
    requires placed_2 { Placed s.now i }
    ensures { result ≡ sibling_pair s.now k i }
{
    both_pairs(s, k, i, 0, 4, 3) || both_pairs(s, k, i, 3, 10, 1)
}

// Whether record i is of the pair and language that may cover record k.
fn is_sibling(s: &[u8], k: usize, i: usize) -> bool
    requires placed { Placed s.now k }
    requires placed_2 { Placed s.now i }
    ensures { result ≡ is_sibling s.now k i }
{
    sibling_pair(s, k, i)
        && has_language(
            language_of(source_records::leads_to(s, k)),
            source_records::leads_to(s, i),
        )
}

// The first such record of the first n; n where there is none.
pub fn first_sibling(s: &[u8], n: usize, k: usize) -> usize
    requires counted { Counted s.now n }
    requires k_lt_n { k < n }
    ensures { result ≡ first_sibling s.now k }
{
    laws::first(n, |i| is_sibling(s, k, i))
}
