// Why a job is refused. Its definitions tell what a table that is made gives, the result's bytes, and the order of refusals.
#![tactic(auto)]

ghost use Rattle.std.specs.Prelude.{◌≡◌};
ghost use Rattle.result.specs.Refusal.{refusal_number};

// Refusals 1 to 9, in their order.
#[derive(Clone, Copy)]
pub enum Refusal {
    BadSizes,
    BadPairs,
    BadKept,
    BadRequested,
    BadHeader,
    LacksBmp,
    LacksFull,
    NamesMissing,
    LacksPlain,
}

impl From<Refusal> for u8 {
    ghost from_gives = { λ refusal number. number ≡ refusal_number refusal };

    // Hosts and the program's output tell a refusal by its number.
    fn from(refusal: Refusal) -> Self {
        match refusal {
            Refusal::BadSizes => 1,
            Refusal::BadPairs => 2,
            Refusal::BadKept => 3,
            Refusal::BadRequested => 4,
            Refusal::BadHeader => 5,
            Refusal::LacksBmp => 6,
            Refusal::LacksFull => 7,
            Refusal::NamesMissing => 8,
            Refusal::LacksPlain => 9,
        }
    }
}
