// The two print heads: which glyph each prints for a code point, from a table of any length.
#![tactic(auto)]

ghost use Rattle.std.specs.Prelude.{◌≡◌, ◌+◌, ◌*◌, ◌≤◌, length};
ghost use Rattle.laws.specs.Search.{first};
ghost use Rattle.source_records.specs.Records.{leads_to_format};
ghost use Rattle.heads.specs.Heads.{old_of, new_of, old_head, new_head};

use heads::HeadRefusal;

// The first of the n records that leads to a readable subtable of the format; n where none does.
fn first_record(s: &[u8], format: u32, n: usize) -> usize
    requires { 4 + 8 * n ≤ length s.now }
    ensures { result ≡ first (leads_to_format format s.now) n 0 }
{
    laws::first(n, |i| source_records::leads_to_format(s, i, format))
}

fn old_of(s: &[u8], c: u32, n: usize) -> Result<u32, HeadRefusal>
    requires { 4 + 8 * n ≤ length s.now }
    ensures { result ≡ old_of s.now c n }
{
    let k = first_record(s, 4, n);
    if k < n {
        let found = heads_lookup_at::lookup4(s, source_header::offset_of(s, k), c);
        return Ok(found.unwrap_or(0));
    }
    Err(HeadRefusal::NothingReadable)
}

// The two heads share the search. What one function of both would take, the format, the lookup and what else to do, is all that they are.
fn new_of(s: &[u8], c: u32, n: usize) -> Result<u32, HeadRefusal>
    requires { 4 + 8 * n ≤ length s.now }
    ensures { result ≡ new_of s.now c n }
{
    let k = first_record(s, 12, n);
    if k < n {
        let found = heads_lookup_at::lookup12(s, source_header::offset_of(s, k), c);
        return Ok(found.unwrap_or(0));
    }
    old_of(s, c, n)
}

// A head is the header's count and its answer by that many records; a function of both heads that takes the answer would be as long.
pub fn old_head(table: &[u8], c: u32) -> Result<u32, HeadRefusal>
    ensures { result ≡ old_head table.now c }
{
    let n = source_header::header_of(table).ok_or(HeadRefusal::BadHeader)?;
    old_of(table, c, n)
}

pub fn new_head(table: &[u8], c: u32) -> Result<u32, HeadRefusal>
    ensures { result ≡ new_head table.now c }
{
    let n = source_header::header_of(table).ok_or(HeadRefusal::BadHeader)?;
    new_of(table, c, n)
}
