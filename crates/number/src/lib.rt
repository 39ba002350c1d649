// Big-endian numbers of two, three and four bytes read from a slice, and a three-byte number from its bytes.
#![tactic(auto)]

pub mod limits;

ghost use Rattle.std.specs.Prelude.{◌≡◌, ◌+◌, ◌≤◌, ◌<◌, length};
ghost use Rattle.number.specs.BigEndian.{be, Num, Byte};

pub fn byte_at(s: &[u8], at: usize) -> u32
    requires { at < length s.now }
    ensures { Byte s.now at result }
{
    u32::from(s[at])
}

// Each width is the one below and a byte: the library reads no number of three bytes, and its others would be proved apart.
pub fn u16_at(s: &[u8], at: usize) -> u32
    requires { at + 2 ≤ length s.now }
    ensures { Num 2 s.now at result }
{
    byte_at(s, at) * 256 + byte_at(s, at + 1)
}

pub fn u24_at(s: &[u8], at: usize) -> u32
    requires { at + 3 ≤ length s.now }
    ensures { Num 3 s.now at result }
{
    u16_at(s, at) * 256 + byte_at(s, at + 2)
}

pub fn u32_at(s: &[u8], at: usize) -> u32
    requires { at + 4 ≤ length s.now }
    ensures { Num 4 s.now at result }
{
    u24_at(s, at) * 256 + byte_at(s, at + 3)
}

pub fn u24_of(b: [u8; 3]) -> u32
    ensures { result ≡ be 3 b 0 }
{
    u24_at(&b, 0)
}
