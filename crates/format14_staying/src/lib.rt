// Whether a mapping of a non-default table stays: its code point is kept, or its old glyph requested.
#![tactic(auto)]

ghost use Rattle.std.specs.Prelude.{◌≡◌};
ghost use Rattle.laws.specs.Lists.{Rising};
ghost use Rattle.lists_marks.specs.Marks.{holds, Bound};
ghost use Rattle.number.specs.BigEndian.{Num};
ghost use Rattle.format14_uvs.specs.NonDefault.{mapping, keeps_mapping};
ghost use Rattle.format14_staying.specs.Staying.{MappingLent};

// The place behind i where the point at i is below c, else i.
fn step(kept: &[u32], c: u32, i: usize) -> usize {
    if i < kept.len() && kept[i] < c {
        return i + 1;
    }
    i
}

// How many kept points are below c; found at once where it is `near` or the next number, which changes the time alone.
pub fn count_next(kept: &[u32], c: u32, near: usize) -> usize
    requires { Rising kept.now }
    ensures { Bound kept.now c result }
{
    let i = step(kept, c, near);
    if i < kept.len() && c <= kept[i] {
        if i == 0 {
            return 0;
        }
        if kept[i - 1] < c {
            return i;
        }
    }
    lists_marks::count_near(kept, u64::from(c), i)
}

// Whether c is a kept point, where i of them are below it.
fn stands_at(kept: &[u32], c: u32, i: usize) -> bool
    requires { Rising kept.now × Bound kept.now c i }
    ensures { result ≡ holds kept.now c }
{
    i < kept.len() && kept[i] == c
}

// Whether the mapping at `place` stays, which has the code point c with i kept points below it.
pub fn stays_at(s: &[u8], place: usize, kept: &[u32], requested: &[u16], c: u32, i: usize) -> bool
    requires mapping_lent { MappingLent s.now place kept.now requested.now }
    requires num { Num 3 s.now place c × Bound kept.now c i }
    ensures { result ≡ keeps_mapping kept.now requested.now (mapping s.now place) }
{
    if stands_at(kept, c, i) {
        return true;
    }
    if requested.is_empty() {
        return false;
    }
    lists_marks::member(requested, number::u16_at(s, place + 3) as u16)
}

// Whether a mapping stays, and how many kept points are below its code point, from where the next one is looked for.
#[derive(Clone, Copy)]
pub struct Staying {
    pub stays: bool,
    pub near: usize,
}

// Whether the mapping at `place` stays: its code point is kept, or its old glyph requested.
pub fn keeps_mapping(
    s: &[u8],
    place: usize,
    kept: &[u32],
    requested: &[u16],
    near: usize,
) -> Staying
    requires { MappingLent s.now place kept.now requested.now }
    ensures { result.stays ≡ keeps_mapping kept.now requested.now (mapping s.now place) }
{
    let c = number::u24_at(s, place);
    let i = count_next(kept, c, near);
    let stays = stays_at(s, place, kept, requested, c, i);
    Staying { stays, near: i }
}
