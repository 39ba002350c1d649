// Answers as a host gets them: a struct of numbers for each, made of an enum's cases.
#![tactic(auto)]

ghost use Rattle.std.specs.Prelude.{◌≡◌};
ghost use Rattle.host_told.specs.Told.{told, told_fate, told_head};
ghost use Rattle.heads.specs.Heads.{old_head, new_head, head_number_of};

use cmap_promise::{Answer, Fate, FateKind, Unwritten, Written};
use heads::HeadRefusal;

// Number 0 is an acceptance; length and records are those written. 10 comes with the length needed.
#[repr(C)]
#[derive(Clone, Copy)]
pub struct SubsetAnswer {
    pub number: u8,
    pub length: usize,
    pub records: usize,
}

// What became of a record. Kinds: 0 not retained, 1 skipped, 2 empty, 3 too long, 4 covered, 5 written at the offset, 6 no such record, 7 refused with the number.
#[repr(C)]
#[derive(Clone, Copy)]
pub struct FateAnswer {
    pub number: u8,
    pub platform: u32,
    pub encoding: u32,
    pub kind: u8,
    pub offset: usize,
}

// Number 0 comes with the glyph to print, 5 and 11 with glyph 0.
#[repr(C)]
#[derive(Clone, Copy)]
pub struct HeadAnswer {
    pub number: u8,
    pub glyph: u32,
}

// ---- answers told in numbers

impl From<Answer> for SubsetAnswer {
    ghost from_gives = { λ answer r. r ≡ told answer };

    fn from(answer: Answer) -> Self {
        match answer {
            Ok(Written { bytes, records }) => SubsetAnswer {
                number: 0,
                length: bytes,
                records,
            },
            Err(Unwritten::Refused(refusal)) => SubsetAnswer {
                number: refusal.into(),
                length: 0,
                records: 0,
            },
            Err(Unwritten::NoRoom(needed)) => SubsetAnswer {
                number: 10,
                length: needed,
                records: 0,
            },
        }
    }
}

impl From<Fate> for FateAnswer {
    ghost from_gives = { λ fate r. r ≡ told_fate fate };

    // Kinds stay numbers in the struct, since a host in C reads them.
    fn from(fate: Fate) -> Self {
        let (kind, number, offset) = match fate.kind {
            FateKind::NotRetained => (0, 0, 0),
            FateKind::Skipped => (1, 0, 0),
            FateKind::Empty => (2, 0, 0),
            FateKind::TooLong => (3, 0, 0),
            FateKind::Covered => (4, 0, 0),
            FateKind::WrittenAt(offset) => (5, 0, offset),
            FateKind::NoSuchRecord => (6, 0, 0),
            FateKind::Refused(refusal) => (7, refusal.into(), 0),
        };
        FateAnswer {
            number,
            platform: fate.platform,
            encoding: fate.encoding,
            kind,
            offset,
        }
    }
}

// ---- the print heads

fn head_number_of(answer: Result<u32, HeadRefusal>) -> u8
    ensures { result ≡ head_number_of answer }
{
    match answer {
        Ok(_) => 0,
        Err(HeadRefusal::BadHeader) => 5,
        Err(HeadRefusal::NothingReadable) => 11,
    }
}

// A head's answer in numbers, which a host in C reads.
fn tell_head(answer: Result<u32, HeadRefusal>) -> HeadAnswer
    ensures { result ≡ told_head answer }
{
    HeadAnswer {
        number: head_number_of(answer),
        glyph: answer.unwrap_or(0),
    }
}

pub fn old_head(table: &[u8], c: u32) -> HeadAnswer
    ensures { result ≡ told_head (old_head table.now c) }
{
    tell_head(heads_print::old_head(table, c))
}

pub fn new_head(table: &[u8], c: u32) -> HeadAnswer
    ensures { result ≡ told_head (new_head table.now c) }
{
    tell_head(heads_print::new_head(table, c))
}
