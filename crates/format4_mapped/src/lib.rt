// No functions: which code points a format 4 subtable maps.
#![tactic(auto)]

#[derive(Clone, Copy)]
pub struct SourceSegment {
    pub start: u32,
    pub end: u32,
    pub delta: u32,
    pub offset: u32,
}

impl SourceSegment {
    // A segment with this start, and all behind it, is not walked.
    pub const WALK_END: u32 = 0xFFFF;
}
