// No functions: a format 14 subtable, its selector records, which are kept, their new tables, the new subtable and what becomes of it, and what it gives.
#![tactic(auto)]

ghost use Rattle.format14.specs.ByNumber.{Readable};

// A readable format 14 subtable, which stands in the source at `at` and has `len` bytes, and the lists that are lent with it.
#[derive(Clone, Copy)]
pub struct Lent14<'a> {
    pub source: &'a [u8],
    pub at: usize,
    pub len: usize,
    pub kept: &'a [u32],
    pub map: &'a [u16],
    pub requested: &'a [u16],
    ghost readable: { Readable source.now at len kept.now requested.now },
}

// What becomes of a format 14 subtable: refusal 8, nothing left to write, or the length of the new one.
#[derive(Clone, Copy)]
pub enum Outcome14 {
    Refused8,
    Empty,
    Length(usize),
}
