// Choices, searches and lists: definitions and laws that every other crate cites, and the searches by a test that is handed in.
#![tactic(auto)]

ghost use Rattle.std.specs.Prelude.{◌≡◌, ◌-◌, ◌<◌, ◌≤◌, ℕ, Bool};
ghost use Rattle.laws.specs.Search.{first, some, AnswersAs, AnswersFrom};

// The first of n places that passes; n where none does, as the definition has it: each law goes on from a place.
pub fn first<F: Fn(usize) -> bool>(n: usize, passes: F) -> usize
    requires { (i : ℕ) → i < n → F.pre passes i }
    ensures value { (p : ℕ → Bool) → AnswersAs p n (F.post passes) → result ≡ first p n 0 }
    ensures upper_bound { result ≤ n }
{
    first_from(0, n, passes)
}

// The first place from low on, up to n, that passes; n where none does.
pub fn first_from<F: Fn(usize) -> bool>(low: usize, n: usize, passes: F) -> usize
    requires low_le_n { low ≤ n }
    requires callable { (i : ℕ) → low ≤ i → i < n → F.pre passes i }
    ensures value { (p : ℕ → Bool) → AnswersFrom p low n (F.post passes) → result ≡ first p (n - low) low }
    ensures bounds { (low ≤ result) × (result ≤ n) }
{
    for i in low..n {
        if passes(i) {
            return i;
        }
    }
    n
}

// Whether some one of n places passes.
pub fn some<F: Fn(usize) -> bool>(n: usize, passes: F) -> bool
    requires { (i : ℕ) → i < n → F.pre passes i }
    ensures { (p : ℕ → Bool) → AnswersAs p n (F.post passes) → result ≡ some p n 0 }
{
    for i in 0..n {
        if passes(i) {
            return true;
        }
    }
    false
}
