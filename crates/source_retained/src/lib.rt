// Which records of a source are retained: the pairs of the Basic Multilingual Plane, the pairs of all planes, and format 14;
// and whether those that refusals 6 and 7 ask for are among them.
#![tactic(auto)]

ghost use Rattle.std.specs.Prelude.{◌≡◌, ◌<◌, ℕ, Bool};
ghost use Rattle.laws.specs.Search.{some, AnswersAs};
ghost use Rattle.laws.specs.Choice.{both};
ghost use Rattle.source_records.specs.Records.{bmp_pair, full_pair, retained, Placed, refused6, refused7, Counted};

pub fn is_bmp(s: &[u8], k: usize) -> bool
    requires { Placed s.now k }
    ensures { result ≡ bmp_pair s.now k }
{
    source_records::is_pair(s, k, 0, 3) || source_records::is_pair(s, k, 3, 1)
}

pub fn is_full(s: &[u8], k: usize) -> bool
    requires { Placed s.now k }
    ensures { result ≡ full_pair s.now k }
{
    source_records::is_pair(s, k, 0, 4) || source_records::is_pair(s, k, 3, 10)
}

pub fn retain_encoding_record_for_subset(s: &[u8], k: usize) -> bool
    requires { Placed s.now k }
    ensures { result ≡ retained s.now k }
{
    is_bmp(s, k) || is_full(s, k) || source_records::leads_to_format(s, k, 14)
}

// Whether some retained record of the first n passes the test.
fn some_retained<F: Fn(usize) -> bool>(s: &[u8], n: usize, passes: F) -> bool
    requires counted { Counted s.now n }
    requires callable { (k : ℕ) → k < n → F.pre passes k }
    ensures { (p : ℕ → Bool) → AnswersAs p n (F.post passes) → result ≡ some (λ k. both (retained s.now k) (p k)) n 0 }
{
    laws::some(
        n,
        |k|
            requires placed { Placed s.now k }
            requires callable { F.pre passes k }
        { retain_encoding_record_for_subset(s, k) && passes(k) },
    )
}

// Refusal 6.
pub fn lacks_bmp(s: &[u8], n: usize) -> bool
    requires { Counted s.now n }
    ensures { result ≡ refused6 s.now }
{
    !some_retained(s, n, |k| source_records::leads_to_format(s, k, 12))
        && !some_retained(s, n, |k| is_bmp(s, k))
}

// Refusal 7.
pub fn lacks_full(s: &[u8], n: usize) -> bool
    requires { Counted s.now n }
    ensures { result ≡ refused7 s.now }
{
    some_retained(s, n, |k| source_records::leads_to_format(s, k, 12))
        && !some_retained(s, n, |k| is_full(s, k))
}
