// A source's header, and its records.
#![tactic(auto)]

ghost use Rattle.std.specs.Prelude.{◌≡◌, ◌+◌, ◌*◌, ◌≤◌, length};
ghost use Rattle.source_header.specs.Header.{record_count, header_of, entry_at, offset_of};

#[derive(Clone, Copy)]
pub struct EncodingRecord {
    pub platform: u32,
    pub encoding: u32,
    pub offset: usize,
}

// How many records the header announces; none is refusal 5.
pub fn header_of(s: &[u8]) -> Option<usize>
    ensures { result ≡ header_of s.now }
{
    let n = s.len();
    if n < 4 {
        return None;
    }
    let version = number::u16_at(s, 0);
    let count = number::u16_at(s, 2) as usize;
    if version != 0 || number::limits::RECORDS_MAX < count || n < 4 + 8 * count {
        return None;
    }
    Some(count)
}

pub fn record_count(s: &[u8]) -> usize
    requires { 4 ≤ length s.now }
    ensures { result ≡ record_count s.now }
{
    number::u16_at(s, 2) as usize
}

// Where record k leads to.
pub fn offset_of(s: &[u8], k: usize) -> usize
    requires { 12 + 8 * k ≤ length s.now }
    ensures { result ≡ offset_of s.now k }
{
    number::u32_at(s, 8 + 8 * k) as usize
}

// Record k; none where its bytes are not all there, whatever the count says.
pub fn record_at(s: &[u8], k: usize) -> Option<EncodingRecord>
    ensures { result ≡ entry_at s.now k }
{
    let n = s.len();
    if n < 12 || (n - 12) / 8 < k {
        return None;
    }
    Some(EncodingRecord {
        platform: number::u16_at(s, 4 + 8 * k),
        encoding: number::u16_at(s, 6 + 8 * k),
        offset: offset_of(s, k),
    })
}
