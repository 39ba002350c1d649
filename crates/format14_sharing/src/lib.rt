// What is done for one table by numbers alone: whether two tables are alike by length and checksum, and where a table stands whose next equal is known.
#![tactic(auto)]

ghost use Rattle.std.specs.Prelude.{◌≡◌, ◌+◌, ◌^◌, ◌<◌, ◌≤◌, eqb, length, get_or, set};
ghost use Rattle.laws.specs.Choice.{both, if_lt};

// What is found of a new table without writing it: how long it is, 0 where there is none, a checksum of its bytes, whether it brings refusal 8, and the
// offset of its source, of four bytes as in a selector record, so that a measure takes 24 bytes. Length and checksum are promised of a table that
// brings refusal 8 too, so that no Err takes their place.
#[derive(Clone, Copy)]
pub struct Measure {
    pub size: usize,
    pub sum: u64,
    pub bad: bool,
    pub source: u32,
}

// Whether two tables are of one length and one checksum: others are not equal.
pub fn alike(one: &Measure, other: &Measure) -> bool
    ensures { result ≡ both (eqb one.now.size other.now.size) (eqb one.now.sum other.now.sum) }
{
    one.size == other.size && one.sum == other.sum
}

// Table k of m shares the distance of table j, the next that equals it; where j is none of them it stands before all later ones, which are `tail` long.
// The length of all from k on.
pub fn place_table(
    ends: &mut [usize],
    m: usize,
    k: usize,
    size: usize,
    j: usize,
    tail: usize,
) -> usize
    requires k_lt_m { (k < m) × (m ≤ length ends.old) }
    requires size_bound { tail + size < 2 ^ 64 }
    ensures ends_after { ends.new ≡ set ends.old k (if_lt j m (get_or ends.old j 0) (tail + size)) }
    ensures value { result ≡ if_lt j m tail (tail + size) }
{
    if j < m {
        ends[k] = ends[j];
        return tail;
    }
    let longer = tail + size;
    ends[k] = longer;
    longer
}
