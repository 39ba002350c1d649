// Whether a format 12 record is covered by its sibling, and so may be left out.
#![tactic(auto)]

ghost use Rattle.std.specs.Prelude.{◌≡◌, ◌≤◌, length};
ghost use Rattle.laws.specs.Select.{any_of};
ghost use Rattle.source_records.specs.Records.{Placed};
ghost use Rattle.plan_listing.specs.Listing.{maps, PointsFlagged};
ghost use Rattle.plan.specs.Covered.{reaches_above, sibling_covers, covered};
ghost use Rattle.plan.specs.CoveredFlags.{some_set, flags_differ, CoveredRoom};

// Whether one of the first n flags is set.
fn some_set(flags: &[u8], n: usize) -> bool
    requires { n ≤ length flags.now }
    ensures { result ≡ some_set flags.now n }
{
    laws::some(n, |i| flags[i] != 0)
}

// Whether the subtable of record k maps one of the points.
fn maps_some(s: &[u8], k: usize, n: u32, points: &[u32], flags: &mut [u8]) -> bool
    requires placed { Placed s.now k }
    requires points_flagged { PointsFlagged n points.now flags.old }
    ensures { result ≡ any_of (maps s.now n k) points.now }
{
    plan_collecting::collect_record(s, k, n, points, flags);
    some_set(flags, points.len())
}

// Whether it maps a kept point at or above 0x10000: no other kept point is looked at.
fn reaches_above(s: &[u8], k: usize, n: u32, kept: &[u32], flags: &mut [u8]) -> bool
    requires placed { Placed s.now k }
    requires points_flagged { PointsFlagged n kept.now flags.old }
    ensures { result ≡ reaches_above s.now n kept.now k }
{
    let split = lists_marks::count_near(kept, 0x10000, kept.len());
    if split < kept.len() {
        return maps_some(s, k, n, &kept[split..], flags);
    }
    false
}

// Whether two of the first n flags are not the same.
fn flags_differ(flags: &[u8], others: &[u8], n: usize) -> bool
    requires { (n ≤ length flags.now) × (n ≤ length others.now) }
    ensures { result ≡ flags_differ flags.now others.now n }
{
    laws::some(n, |i| flags[i] != others[i])
}

// Whether the first sibling of record k, of m, maps the same kept points, all below 0x10000.
fn sibling_covers(
    s: &[u8],
    m: usize,
    k: usize,
    n: u32,
    kept: &[u32],
    flags: &mut [u8],
    others: &mut [u8],
) -> bool
    requires { CoveredRoom s.now m k n kept.now flags.old others.old }
    ensures { result ≡ sibling_covers s.now n kept.now k }
{
    let i = plan_sibling::first_sibling(s, m, k);
    if m <= i {
        return false;
    }
    if reaches_above(s, k, n, kept, flags) {
        return false;
    }
    plan_collecting::collect_record(s, k, n, kept, flags);
    plan_collecting::collect_record(s, i, n, kept, others);
    !flags_differ(flags, others, kept.len())
}

// Whether record k of m is covered in a font of n glyphs; flags and others are work room.
pub fn can_drop_format12(
    s: &[u8],
    m: usize,
    k: usize,
    n: u32,
    kept: &[u32],
    flags: &mut [u8],
    others: &mut [u8],
) -> bool
    requires { CoveredRoom s.now m k n kept.now flags.old others.old }
    ensures { result ≡ covered s.now n kept.now k }
{
    source_records::leads_to_format(s, k, 12) && sibling_covers(s, m, k, n, kept, flags, others)
}
