// Big-endian numbers of two, three and four bytes written to a slice, and the bytes of a three-byte number.
#![tactic(auto)]

ghost use Rattle.std.specs.Prelude.{◌≡◌, ◌+◌, ◌≤◌, length};
ghost use Rattle.number.specs.BigEndian.{enc, put};

pub fn put_u16(out: &mut [u8], at: usize, v: u32)
    requires { at + 2 ≤ length out.old }
    ensures { out.new ≡ put 2 out.old at v }
{
    out[at] = (v / 256 % 256) as u8;
    out[at + 1] = (v % 256) as u8;
}

// As each reader of `number`, a writer is the one of the width below and a byte: the library has no number of three bytes.
pub fn put_u24(out: &mut [u8], at: usize, v: u32)
    requires { at + 3 ≤ length out.old }
    ensures { out.new ≡ put 3 out.old at v }
{
    put_u16(out, at, v / 256);
    out[at + 2] = (v % 256) as u8;
}

pub fn put_u32(out: &mut [u8], at: usize, v: u32)
    requires { at + 4 ≤ length out.old }
    ensures { out.new ≡ put 4 out.old at v }
{
    put_u24(out, at, v / 256);
    out[at + 3] = (v % 256) as u8;
}

pub fn u24_bytes(v: u32) -> [u8; 3]
    ensures { result ≡ enc 3 v }
{
    let [_, high, middle, low] = v.to_be_bytes();
    [high, middle, low]
}
