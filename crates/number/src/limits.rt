// The limits of docs/RULES.md, "What is lent", "Numbers of refusal" and "Records".
pub const SOURCE_MAX: usize = 1048576;

pub const PAIRS_MAX: usize = 65535;

pub const KEPT_MAX: usize = 131072;

pub const GLYPH_COUNT_MAX: usize = 65535;

pub const REQUESTED_MAX: usize = 65535;

pub const RECORDS_MAX: usize = 64;

pub const SELECTORS_MAX: usize = 512;

// Two tables for each selector.
pub const TABLES_MAX: usize = 2 * SELECTORS_MAX;

pub const FORMAT4_LENGTH_MAX: usize = 65535;

// What a list of code points holds. docs/RULES.md, "The shape of some places", asks for the limit as an associated constant.
#[derive(Clone, Copy)]
pub struct CodePoint {
    pub value: u32,
}

impl CodePoint {
    pub const UNICODE_MAX: u32 = 0x10FFFF;
}

// What a pair's glyph, and the map, hold; in the form of the limit of code points.
#[derive(Clone, Copy)]
pub struct NewGlyph {
    pub value: u16,
}

impl NewGlyph {
    pub const MAX: u16 = 65534;

    pub const ABSENT: u16 = 65535;
}
