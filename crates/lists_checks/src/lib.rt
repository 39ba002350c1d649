// Refusals 1 to 4: sizes, order and limits of the lists that are lent.
#![tactic(auto)]

ghost use Rattle.std.specs.Prelude.{◌≡◌};
ghost use Rattle.lists_checks.specs.Checks.{bad_sizes, bad_pairs, bad_kept, bad_requested};

use number::limits;
use number::limits::{CodePoint, NewGlyph};

pub fn bad_sizes(
    source: usize,
    codes: usize,
    glyphs: usize,
    kept: usize,
    n: usize,
    requested: usize,
) -> bool
    ensures { result ≡ bad_sizes source codes glyphs kept n requested }
{
    limits::SOURCE_MAX < source
        || codes != glyphs
        || limits::PAIRS_MAX < codes
        || limits::KEPT_MAX < kept
        || n == 0
        || limits::GLYPH_COUNT_MAX < n
        || limits::REQUESTED_MAX < requested
}

pub fn bad_pairs(codes: &[u32], glyphs: &[u16]) -> bool
    ensures { result ≡ bad_pairs codes.now glyphs.now }
{
    lists_order::falls(codes)
        || lists_order::last_above(CodePoint::UNICODE_MAX, codes)
        || lists_order::exceeds(NewGlyph::MAX, glyphs)
}

pub fn bad_kept(kept: &[u32], codes: &[u32]) -> bool
    ensures { result ≡ bad_kept kept.now codes.now }
{
    lists_order::falls(kept)
        || lists_order::last_above(CodePoint::UNICODE_MAX, kept)
        || lists_order::lacks(kept, codes)
}

pub fn bad_requested(n: usize, requested: &[u16]) -> bool
    ensures { result ≡ bad_requested n requested.now }
{
    lists_order::falls(requested) || lists_order::last_reaches(n, requested)
}
