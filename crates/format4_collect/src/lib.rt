// Which code points of a rising list a format 4 subtable maps, asked for all at once in one walk over the segments, in order or from the
// last to the first. Walking down, blocks of points that are decided are passed over.
#![tactic(auto)]

ghost use Rattle.std.specs.Prelude.{◌≡◌, ◌+◌, ◌*◌, ◌/◌, ◌≤◌, ◌<◌, length};
ghost use Rattle.lists_marks.specs.Marks.{Flags, flagged, painted, Cleared};
ghost use Rattle.format4_segments.specs.Asked.{says_of, holds_of, among_of, maps_of};
ghost use Rattle.format4_collect.specs.Downward.{decided, Held, Decided, NotedBlocks, DecidedBy};
ghost use Rattle.std.proofs.lemmas.List.Edits.{sets};
ghost use Rattle.format4_collect.specs.Walks.{Telling, Settled, Walked};

use format4_segments::{Format4, Segment4};
use lists_spans::Span;

// Walking down, what is decided is known in blocks of so many flags.
const BLOCK: usize = 256;

// The flag of a point that a segment holds, walking down: 0 till then; what a later segment said, 1 for yes or 2 for no, stays.
fn decided_flag(flag: u8, mapped: bool) -> u8
    ensures { result ≡ decided mapped flag }
{
    if flag != 0 {
        flag
    } else if mapped {
        1
    } else {
        2
    }
}

// A segment's word on the points of a span, all of which it holds.
fn decide_points(segment: &Segment4, points: &[u32], flags: &mut [u8], span: Span)
    requires order { span.low ≤ span.high }
    requires held { Held points.now segment.now.read.start segment.now.read.end span.low span.high }
    requires flags { Flags points.now flags.old }
    ensures { Decided (says_of segment.now) points.now flags.old flags.new span.low span.high }
{
    for j in span.low..span.high {
        flags[j] = decided_flag(flags[j], segment.maps(points[j]));
    }
}

// The same within one block: passed over where the block is noted, and noted where it is decided whole.
fn decide_block(
    segment: &Segment4,
    points: &[u32],
    flags: &mut [u8],
    noted: &mut [u8; 256],
    span: Span,
)
    requires low_lt_high { (span.low < 65536) × (span.low < span.high) × (span.high ≤ 256 * (span.low / 256) + 256) }
    requires held { Held points.now segment.now.read.start segment.now.read.end span.low span.high }
    requires flags { Flags points.now flags.old }
    requires noted_blocks { NotedBlocks noted.old flags.old }
    ensures decided { Decided (says_of segment.now) points.now flags.old flags.new span.low span.high }
    ensures noted_blocks_2 { NotedBlocks noted.new flags.new }
{
    let block = span.low / BLOCK;
    if noted[block] != 0 {
        return;
    }
    decide_points(segment, points, flags, span);
    if span.low + BLOCK <= span.high {
        noted[block] = 1;
    }
}

// The same, block by block. A `for` cannot jump to the next block.
fn decide_blocks(
    segment: &Segment4,
    points: &[u32],
    flags: &mut [u8],
    noted: &mut [u8; 256],
    span: Span,
)
    requires order { (span.low ≤ span.high) × (span.high ≤ 65536) }
    requires held { Held points.now segment.now.read.start segment.now.read.end span.low span.high }
    requires flags { Flags points.now flags.old }
    requires noted_blocks { NotedBlocks noted.old flags.old }
    ensures decided { Decided (says_of segment.now) points.now flags.old flags.new span.low span.high }
    ensures noted_blocks_2 { NotedBlocks noted.new flags.new }
{
    let mut j = span.low;
    while j < span.high {
        let end = lists_flags::block_end(j, span.high);
        let block = Span { low: j, high: end };
        decide_block(segment, points, flags, noted, block);
        j = end;
    }
}

// A segment's word on the points that it holds and of which no later segment said anything.
pub fn decide_segment(segment: &Segment4, points: &[u32], flags: &mut [u8], noted: &mut [u8; 256])
    requires flags { Flags points.now flags.old }
    requires noted_blocks { NotedBlocks noted.old flags.old }
    ensures decided_by { DecidedBy (holds_of segment.now) (says_of segment.now) points.now flags.old flags.new }
    ensures noted_blocks_2 { NotedBlocks noted.new flags.new }
{
    let span = lists_spans::span_near(points, segment.read.start, segment.read.end, 0);
    if span.low < span.high {
        decide_blocks(segment, points, flags, noted, span);
    }
}

// A segment's word on the points that it holds, written over what earlier segments said; where the next segment's points most likely
// begin, which the walk hands on as `near`.
fn mark_segment(segment: &Segment4, points: &[u32], flags: &mut [u8], near: usize) -> usize
    requires { Flags points.now flags.old }
    ensures { flags.new ≡ painted (holds_of segment.now) (says_of segment.now) points.now flags.old }
{
    let read = segment.read;
    if lists_spans::is_passed(points, read.start, read.end, near) {
        return near;
    }
    let span = lists_spans::span_near(points, read.start, read.end, near);
    for j in span.low..span.high {
        flags[j] = u8::from(segment.maps(points[j]));
    }
    span.high
}

// Whether a segment starts where those before it end or behind: then few points are held twice.
fn in_order(segment: &Segment4, past: u32) -> bool {
    let read = segment.read;
    past <= read.start && read.start <= read.end
}

// The walk over segments in order, from flags that are clear; false where it met one that is not in order, and the flags say nothing.
fn mark_in_order(subtable: &Format4, points: &[u32], flags: &mut [u8]) -> bool
    requires flags { Flags points.now flags.old }
    requires cleared { Cleared (length points.now) flags.old }
    ensures { Walked result (maps_of subtable.now) points.now flags.old flags.new }
{
    let mut near = 0;
    let mut past = 0;
    for i in 0..subtable.place.segs {
        let segment = subtable.segment_at(i);
        if segment.ends_walk() {
            return true;
        }
        if !in_order(&segment, past) {
            return false;
        }
        near = mark_segment(&segment, points, flags, near);
        past = segment.read.end;
    }
    true
}

// The walk from the last segment to the first, from flags that are clear and with nothing noted.
fn mark_down_by(subtable: &Format4, points: &[u32], flags: &mut [u8], noted: &mut [u8; 256])
    requires flags { Flags points.now flags.old }
    requires cleared { Cleared (length points.now) flags.old }
    requires noted_blocks { NotedBlocks noted.old flags.old }
    ensures { Telling (maps_of subtable.now) (among_of subtable.now 0) points.now flags.old flags.new }
{
    for i in (0..subtable.walk_end()).rev() {
        let segment = subtable.segment_at(i);
        decide_segment(&segment, points, flags, noted);
    }
}

// Makes flags of the first n words: 1 stays, 2 becomes 0.
fn settle(flags: &mut [u8], n: usize)
    requires { n ≤ length flags.old }
    ensures { Settled n flags.old flags.new }
{
    for j in 0..n {
        flags[j] %= 2;
    }
}

// The same for segments in any order, in a time that does not grow with how often points are held.
fn mark_down(subtable: &Format4, points: &[u32], flags: &mut [u8])
    requires flags { Flags points.now flags.old }
    requires cleared { Cleared (length points.now) flags.old }
    ensures { flags.new ≡ sets flags.old 0 (flagged (maps_of subtable.now) points.now) }
{
    let mut noted = [0u8; 256];
    mark_down_by(subtable, points, flags, &mut noted);
    settle(flags, points.len());
}

// The walk over the segments, from flags that are clear.
fn mark_segments(subtable: &Format4, points: &[u32], flags: &mut [u8])
    requires flags { Flags points.now flags.old }
    requires cleared { Cleared (length points.now) flags.old }
    ensures { flags.new ≡ sets flags.old 0 (flagged (maps_of subtable.now) points.now) }
{
    if mark_in_order(subtable, points, flags) {
        return;
    }
    lists_flags::clear(flags, points.len());
    mark_down(subtable, points, flags);
}

// Sets the flag of each point to whether the subtable maps it.
pub fn collect_unicodes4(subtable: &Format4, points: &[u32], flags: &mut [u8])
    requires { Flags points.now flags.old }
    ensures { flags.new ≡ sets flags.old 0 (flagged (maps_of subtable.now) points.now) }
{
    lists_flags::clear(flags, points.len());
    mark_segments(subtable, points, flags);
}
