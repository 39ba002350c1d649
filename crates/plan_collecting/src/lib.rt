// Which of a rising list of points the subtable at an offset maps, and the listed pairs among them.
#![tactic(auto)]

ghost use Rattle.std.specs.Prelude.{◌≡◌, ◌≤◌, length, take};
ghost use Rattle.std.proofs.lemmas.List.Edits.{sets};
ghost use Rattle.source_records.specs.Records.{Placed};
ghost use Rattle.lists_marks.specs.Marks.{flagged, kept, CopyRoom};
ghost use Rattle.plan_listing.specs.Listing.{maps_as, maps, listed, code_column, glyph_column, KindFlagged, PointsFlagged, ColumnsWithRoom, FrontOfColumns};

use format4_segments::Format4;
use format12_collect::Format12;
use plan_listing::Job;
use source::{Kind, Segments};

// Sets the flag of each point to whether the subtable of that kind maps it.
fn collect_unicodes(s: &[u8], at: usize, kind: Kind, n: u32, points: &[u32], flags: &mut [u8])
    requires { KindFlagged kind s.now at n points.now flags.old }
    ensures { flags.new ≡ sets flags.old 0 (flagged (maps_as kind s.now at n) points.now) }
{
    match kind {
        Kind::Format4 {
            language: _,
            segments,
            length,
        } => {
            let place = Segments {
                at,
                segs: segments,
                len: length,
            };
            let subtable = Format4 { source: s, place };
            format4_collect::collect_unicodes4(&subtable, points, flags)
        }
        Kind::Format12 {
            language: _,
            groups,
            length: _,
        } => {
            let subtable = Format12 {
                source: s,
                at,
                groups,
                glyphs: n,
            };
            format12_collect::collect_unicodes12(&subtable, points, flags)
        }
        Kind::Format14 {
            records: _,
            length: _,
        } => lists_flags::clear(flags, points.len()),
        Kind::Unreadable => lists_flags::clear(flags, points.len()),
    }
}

// The same for the subtable that record k leads to.
pub fn collect_record(s: &[u8], k: usize, n: u32, points: &[u32], flags: &mut [u8])
    requires placed { Placed s.now k }
    requires points_flagged { PointsFlagged n points.now flags.old }
    ensures { flags.new ≡ sets flags.old 0 (flagged (maps s.now n k) points.now) }
{
    let record = source_records::encoding_record(s, k);
    let at = record.offset;
    collect_unicodes(s, at, source::kind_at(s, at), n, points, flags);
}

// The listed pairs of a record, in two columns. `front` is how many they are, where they are the first of the lent pairs; else it is 0. An
// `Option` is no plainer: plans note a 0 too.
#[derive(Clone, Copy)]
pub struct Listed<'a> {
    pub codes: &'a [u32],
    pub glyphs: &'a [u16],
    pub front: usize,
}

// A size that listed pairs come to, with their front.
#[derive(Clone, Copy)]
pub struct Measured<S> {
    pub size: S,
    pub front: usize,
}

// The first of the lent pairs, so many of them.
fn first_pairs<'a>(job: &'a Job, front: usize) -> Listed<'a>
    requires codes_in_bounds { front ≤ length job.now.codes.now }
    requires glyphs_in_bounds { front ≤ length job.now.glyphs.now }
    ensures codes { result.codes.now ≡ take front job.now.codes.now }
    ensures glyphs { result.glyphs.now ≡ take front job.now.glyphs.now }
    ensures front_kept { result.front ≡ front }
{
    Listed {
        codes: &job.codes[..front],
        glyphs: &job.glyphs[..front],
        front,
    }
}

// The lent pairs whose flag is set, copied to the front of the columns lent for them.
fn copied_pairs<'a>(
    job: &Job,
    flags: &[u8],
    tocodes: &'a mut [u32],
    toglyphs: &'a mut [u16],
) -> Listed<'a>
    requires { CopyRoom flags.now job.now.codes.now job.now.glyphs.now tocodes.old toglyphs.old }
    ensures codes { result.codes.now ≡ kept flags.now job.now.codes.now }
    ensures glyphs { result.glyphs.now ≡ kept flags.now job.now.glyphs.now }
    ensures no_front { result.front ≡ 0 }
{
    let n = lists_flags::copy_marked(flags, job.codes, job.glyphs, tocodes, toglyphs);
    Listed {
        codes: &tocodes[..n],
        glyphs: &toglyphs[..n],
        front: 0,
    }
}

// The pairs whose code points the subtable of record k maps. They are copied only where they are not the first of the lent ones.
pub fn lend_pairs<'a>(
    job: &'a Job,
    k: usize,
    flags: &mut [u8],
    tocodes: &'a mut [u32],
    toglyphs: &'a mut [u16],
) -> Listed<'a>
    requires placed { Placed job.now.source.now k }
    requires points_flagged { PointsFlagged (length job.now.map.now) job.now.codes.now flags.old }
    requires columns_with_room { ColumnsWithRoom job.now.codes.now job.now.glyphs.now tocodes.old toglyphs.old }
    ensures columns { let ps = listed job.now.source.now (length job.now.map.now) job.now.codes.now job.now.glyphs.now k in
        (result.codes.now ≡ code_column ps) × (result.glyphs.now ≡ glyph_column ps) }
    ensures front { let ps = listed job.now.source.now (length job.now.map.now) job.now.codes.now job.now.glyphs.now k in
        FrontOfColumns ps job.now.codes.now job.now.glyphs.now result.front }
{
    collect_record(job.source, k, job.map.len() as u32, job.codes, flags);
    let front = lists_flags::front(flags, job.codes.len());
    if 0 < front {
        return first_pairs(job, front);
    }
    copied_pairs(job, flags, tocodes, toglyphs)
}

// The same by what a plan notes of the record: no subtable is walked for pairs that are the first of the lent ones.
pub fn lend_noted_pairs<'a>(
    job: &'a Job,
    k: usize,
    front: usize,
    flags: &mut [u8],
    tocodes: &'a mut [u32],
    toglyphs: &'a mut [u16],
) -> Listed<'a>
    requires placed { Placed job.now.source.now k }
    requires points_flagged { PointsFlagged (length job.now.map.now) job.now.codes.now flags.old }
    requires columns_with_room { ColumnsWithRoom job.now.codes.now job.now.glyphs.now tocodes.old toglyphs.old }
    requires front { let ps = listed job.now.source.now (length job.now.map.now) job.now.codes.now job.now.glyphs.now k in
        FrontOfColumns ps job.now.codes.now job.now.glyphs.now front }
    ensures { let ps = listed job.now.source.now (length job.now.map.now) job.now.codes.now job.now.glyphs.now k in
        (result.codes.now ≡ code_column ps) × (result.glyphs.now ≡ glyph_column ps) }
{
    if 0 < front {
        first_pairs(job, front)
    } else {
        collect_record(job.source, k, job.map.len() as u32, job.codes, flags);
        copied_pairs(job, flags, tocodes, toglyphs)
    }
}
