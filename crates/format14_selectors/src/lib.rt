// The header of a format 14 subtable and its selector records, which know their tables by the distance from the subtable's end.
#![tactic(auto)]

ghost use Rattle.std.specs.Prelude.{◌≡◌, ◌+◌, ◌*◌, ◌<◌, ◌≤◌, length};
ghost use Rattle.std.proofs.lemmas.List.Edits.{sets};
ghost use Rattle.laws.specs.Select.{flat};
ghost use Rattle.format14.specs.SelectorRecords.{used_at, used_records, offset_for, selector_bytes, record_at, header14_with, Distances, Far};

// Whether record k has a table.
fn is_used(ends: &[usize], k: usize) -> bool
    requires { 2 * k + 1 < length ends.now }
    ensures { result ≡ used_at ends.now k }
{
    ends[2 * k] > 0 || ends[2 * k + 1] > 0
}

// How many of n records have a table.
pub fn count_records(ends: &[usize], n: usize) -> usize
    requires { 2 * n ≤ length ends.now }
    ensures value { result ≡ length (used_records ends.now n) }
    ensures upper_bound { result ≤ n }
{
    let mut count = 0;
    for k in 0..n {
        if is_used(ends, k) {
            count += 1;
        }
    }
    count
}

// A missing table has offset 0.
fn offset_for(total: usize, far: usize) -> u32
    requires { Far total far }
    ensures { result ≡ offset_for total far }
{
    if far == 0 {
        return 0;
    }
    (total - far) as u32
}

fn copy_var_selector_record_header(
    out: &mut [u8],
    place: usize,
    selector: u32,
    first: u32,
    second: u32,
)
    requires { place + 11 ≤ length out.old }
    ensures { out.new ≡ sets out.old place (selector_bytes selector first second) }
{
    number_writer::put_u24(out, place, selector);
    number_writer::put_u32(out, place + 3, first);
    number_writer::put_u32(out, place + 7, second);
}

// Writes record k of the source's subtable at `at`, with its new offsets.
fn copy_record(
    out: &mut [u8],
    place: usize,
    s: &[u8],
    at: usize,
    total: usize,
    ends: &[usize],
    k: usize,
)
    requires distances { Distances (k + 1) total ends.now }
    requires room { (place + 11 ≤ length out.old) × (at + 10 + 11 * (k + 1) ≤ length s.now) }
    ensures { out.new ≡ sets out.old place (record_at s.now at total ends.now k) }
{
    let selector = number::u24_at(s, at + 10 + 11 * k);
    let first = offset_for(total, ends[2 * k]);
    let second = offset_for(total, ends[2 * k + 1]);
    copy_var_selector_record_header(out, place, selector, first, second);
}

// Writes those of the n records that have a table.
pub fn copy_records(
    out: &mut [u8],
    to: usize,
    s: &[u8],
    at: usize,
    total: usize,
    ends: &[usize],
    n: usize,
)
    requires distances { Distances n total ends.now }
    requires room { (to + 11 * length (used_records ends.now n) ≤ length out.old) × (at + 10 + 11 * n ≤ length s.now) }
    ensures { out.new ≡ sets out.old to (flat (record_at s.now at total ends.now) (used_records ends.now n)) }
{
    let mut place = to;
    for k in 0..n {
        if is_used(ends, k) {
            copy_record(out, place, s, at, total, ends, k);
            place += 11;
        }
    }
}

pub fn put_header(out: &mut [u8], place: usize, total: u32, count: u32)
    requires { place + 10 ≤ length out.old }
    ensures { out.new ≡ sets out.old place (header14_with total count) }
{
    number_writer::put_u16(out, place, 14);
    number_writer::put_u32(out, place + 2, total);
    number_writer::put_u32(out, place + 6, count);
}
