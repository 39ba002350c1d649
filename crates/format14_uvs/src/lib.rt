// When a default or non-default table of a format 14 subtable counts, and a checksum of a new table, record by record.
#![tactic(auto)]

ghost use Rattle.std.specs.Prelude.{◌≡◌, ◌+◌, ◌≤◌, length};
ghost use Rattle.format14_uvs.specs.Checksum.{stirred};
ghost use Rattle.format14_uvs.specs.Tables.{counts};

// Whether a table counts that stands `off` from the start of the subtable and has records of `size` bytes: 4 in a default, 5 in a non-default one.
pub fn counts(s: &[u8], at: usize, len: usize, off: u32, size: usize) -> bool
    requires { (at + len ≤ length s.now) × (size ≤ 5) }
    ensures { result ≡ counts size s.now at len off }
{
    let off = off as usize;
    if off == 0 {
        return false;
    }
    if len < off + 4 {
        return false;
    }
    let records = number::u32_at(s, at + off) as usize;
    off + 4 + size * records <= len
}

// A checksum with one number more, which stands for a record.
pub fn mix(sum: u64, v: u64) -> u64
    ensures { result ≡ stirred sum v }
{
    let high = sum / 4294967296;
    let low = sum % 4294967296;
    let x = high * high + low + v % 2147483648 + 1640531527;
    let y = low * low + high + v / 512 % 2147483648 + 1013904223;
    let first = (x / 4294967296 * 5 + x % 4294967296) % 4294967296;
    let second = (y / 4294967296 * 17 + y % 4294967296) % 4294967296;
    first * 4294967296 + second
}
