// What a call promises: its answer, its output, and what became of each record. Definitions and laws; `cmap` keeps the promise.
#![tactic(auto)]

ghost use Rattle.std.specs.Prelude.{◌≡◌};
ghost use Rattle.cmap_promise.specs.declared.Unwritten.TheVariants.{Refused};

use result::Refusal;

// The length of a result, and how many records were written.
#[derive(Clone, Copy)]
pub struct Written {
    pub bytes: usize,
    pub records: usize,
}

// NoRoom, which is refusal 10, holds the length that the output would need.
#[derive(Clone, Copy)]
pub enum Unwritten {
    Refused(Refusal),
    NoRoom(usize),
}

impl From<Refusal> for Unwritten {
    ghost from_gives = { λ refusal r. r ≡ Refused refusal };

    fn from(refusal: Refusal) -> Self {
        Unwritten::Refused(refusal)
    }
}

pub type Answer = Result<Written, Unwritten>;

#[derive(Clone, Copy)]
pub enum FateKind {
    NotRetained,
    Skipped,
    Empty,
    TooLong,
    Covered,
    WrittenAt(usize),
    Refused(Refusal),
    NoSuchRecord,
}

#[derive(Clone, Copy)]
pub struct Fate {
    pub platform: u32,
    pub encoding: u32,
    pub kind: FateKind,
}
