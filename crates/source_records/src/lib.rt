// The records of a source: the pair of each, and what it leads to. Which are retained, and refusals 6 and 7, are defined here.
#![tactic(auto)]

ghost use Rattle.std.specs.Prelude.{◌≡◌};
ghost use Rattle.source_header.specs.Header.{record_of};
ghost use Rattle.source_records.specs.Records.{leads_to, is_pair, leads_to_format, Placed};

use source::Kind;
use source_header::EncodingRecord;

pub fn encoding_record(s: &[u8], k: usize) -> EncodingRecord
    requires { Placed s.now k }
    ensures { result ≡ record_of s.now k }
{
    source_header::record_at(s, k).unwrap()
}

pub fn leads_to(s: &[u8], k: usize) -> Kind
    requires { Placed s.now k }
    ensures { result ≡ leads_to s.now k }
{
    source::kind_at(s, encoding_record(s, k).offset)
}

pub fn is_pair(s: &[u8], k: usize, platform: u32, encoding: u32) -> bool
    requires { Placed s.now k }
    ensures { result ≡ is_pair platform encoding s.now k }
{
    let e = encoding_record(s, k);
    (e.platform, e.encoding) == (platform, encoding)
}

pub fn leads_to_format(s: &[u8], k: usize, format: u32) -> bool
    requires { Placed s.now k }
    ensures { result ≡ leads_to_format format s.now k }
{
    source::format_of(leads_to(s, k)) == format
}
