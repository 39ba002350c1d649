// What can be read at an offset of a source: a subtable's format, with its language, count and length.
#![tactic(auto)]

ghost use Rattle.std.specs.Prelude.{◌≡◌, ◌-◌, length};
ghost use Rattle.number.specs.BigEndian.{be};
ghost use Rattle.source.specs.Kind.{kind_at, format_of};

// A subtable that can be read, with its language, count and length, or none. `Unreadable` is a case beside the formats: in an Option round
// them each match would have the same four arms, one level deeper.
#[derive(Clone, Copy)]
pub enum Kind {
    Format4 {
        language: u32,
        segments: usize,
        length: usize,
    },
    Format12 {
        language: u32,
        groups: usize,
        length: usize,
    },
    Format14 {
        records: usize,
        length: usize,
    },
    Unreadable,
}

// A readable format 4 subtable: where it stands in the source, how many segments it has, and how many bytes.
#[derive(Clone, Copy)]
pub struct Segments {
    pub at: usize,
    pub segs: usize,
    pub len: usize,
}

// How many bytes the source has from `at` on.
fn bytes_from(s: &[u8], at: usize) -> usize
    ensures { result ≡ length s.now - at }
{
    s.len().saturating_sub(at)
}

// The formats have their fields at other places and in other widths, so each has a function; the two comparisons with the length are what they
// share.
fn format4_at(s: &[u8], at: usize) -> Kind
    requires { be 2 s.now at ≡ 4 }
    ensures { result ≡ kind_at s.now at }
{
    let room = bytes_from(s, at);
    if room < 16 {
        return Kind::Unreadable;
    }
    let length = number::u16_at(s, at + 2) as usize;
    let language = number::u16_at(s, at + 4);
    let twice = number::u16_at(s, at + 6) as usize;
    let segments = twice / 2;
    if twice % 2 != 0 || segments == 0 {
        return Kind::Unreadable;
    }
    if length < 16 + 8 * segments || room < length {
        return Kind::Unreadable;
    }
    Kind::Format4 {
        language,
        segments,
        length,
    }
}

fn format12_at(s: &[u8], at: usize) -> Kind
    requires { be 2 s.now at ≡ 12 }
    ensures { result ≡ kind_at s.now at }
{
    let room = bytes_from(s, at);
    if room < 16 {
        return Kind::Unreadable;
    }
    let length = number::u32_at(s, at + 4) as usize;
    let language = number::u32_at(s, at + 8);
    let groups = number::u32_at(s, at + 12) as usize;
    if length < 16 + 12 * groups || room < length {
        return Kind::Unreadable;
    }
    Kind::Format12 {
        language,
        groups,
        length,
    }
}

fn format14_at(s: &[u8], at: usize) -> Kind
    requires { be 2 s.now at ≡ 14 }
    ensures { result ≡ kind_at s.now at }
{
    let room = bytes_from(s, at);
    if room < 10 {
        return Kind::Unreadable;
    }
    let length = number::u32_at(s, at + 2) as usize;
    let records = number::u32_at(s, at + 6) as usize;
    if number::limits::SELECTORS_MAX < records {
        return Kind::Unreadable;
    }
    if length < 10 + 11 * records || room < length {
        return Kind::Unreadable;
    }
    Kind::Format14 { records, length }
}

pub fn kind_at(s: &[u8], at: usize) -> Kind
    ensures { result ≡ kind_at s.now at }
{
    if bytes_from(s, at) < 2 {
        return Kind::Unreadable;
    }
    match number::u16_at(s, at) {
        4 => format4_at(s, at),
        12 => format12_at(s, at),
        14 => format14_at(s, at),
        _ => Kind::Unreadable,
    }
}

// The number of a kind's format; 0 where nothing is readable.
pub fn format_of(kind: Kind) -> u32
    ensures { result ≡ format_of kind }
{
    match kind {
        Kind::Format4 { .. } => 4,
        Kind::Format12 { .. } => 12,
        Kind::Format14 { .. } => 14,
        Kind::Unreadable => 0,
    }
}
