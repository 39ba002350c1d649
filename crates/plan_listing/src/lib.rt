// A job as it is lent, which code points a subtable maps, and the listed pairs among them. There are no functions here.
#![tactic(auto)]

// What is lent but the output and the work room: the source, the pairs in two columns, the kept points, the map and the requested glyphs.
#[derive(Clone, Copy)]
pub struct Job<'a> {
    pub source: &'a [u8],
    pub codes: &'a [u32],
    pub glyphs: &'a [u16],
    pub kept: &'a [u32],
    pub map: &'a [u16],
    pub requested: &'a [u16],
}
