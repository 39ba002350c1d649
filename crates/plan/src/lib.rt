// What becomes of each record of a source, the table that it makes, which earlier table serves it, what refusals 8 and 9 ask,
// and what a plan notes.
#![tactic(auto)]

ghost use Rattle.std.specs.Prelude.{◌≡◌, ◌<◌, ◌≤◌, length, replicate};
ghost use Rattle.number.specs.Limits.{records_max};
ghost use Rattle.plan.specs.Notes.{noted};

use number::limits::{RECORDS_MAX, TABLES_MAX};

// Why a record is in no result.
#[derive(Clone, Copy)]
pub enum Why {
    NotRetained,
    Skipped,
    Empty,
    TooLong,
    Covered,
}

// A bad mapping is refusal 8. Served holds the record whose table serves, Made the length of the record's own table.
#[derive(Clone, Copy)]
pub enum Outcome {
    LeftOut(Why),
    BadMapping,
    Served(usize),
    Made(usize),
}

// What a plan notes: the outcome of each record, how many listed pairs of it are the first of the lent columns, and how far the tables of
// the new format 14 subtable stand from its end.
#[derive(Clone, Copy)]
pub struct Notes {
    pub outcomes: [Outcome; RECORDS_MAX],
    pub fronts: [usize; RECORDS_MAX],
    pub ends: [usize; TABLES_MAX],
}

impl Notes {
    // Nothing is noted yet.
    pub fn new() -> Self
        ensures outcomes { records_max ≤ length result.outcomes }
        ensures fronts { result.fronts ≡ replicate 64 0 }
    {
        Notes {
            outcomes: [Outcome::LeftOut(Why::NotRetained); RECORDS_MAX],
            fronts: [0; RECORDS_MAX],
            ends: [0; TABLES_MAX],
        }
    }

    // Notes what became of record k.
    pub fn note(&mut self, k: usize, outcome: Outcome)
        requires { k < records_max }
        ensures { self.new ≡ noted self.old k outcome }
    {
        self.outcomes[k] = outcome;
    }
}
