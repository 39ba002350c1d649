// Finds where a run of listed pairs ends: code points and glyphs that both rise by one.
#![tactic(auto)]

ghost use Rattle.std.specs.Prelude.{◌≡◌, ◌<◌, length};
ghost use Rattle.lists_runs.specs.Runs.{breaks, RunEndsAt};

// Whether the pair (d, h) does not go on from the pair (c, g): the crate's is_gid_consecutive, asked of neighbours and turned round.
fn breaks(c: u32, g: u16, d: u32, h: u16) -> bool
    ensures { result ≡ breaks c g d h }
{
    u64::from(d) != u64::from(c) + 1 || u32::from(h) != u32::from(g) + 1
}

// The first place behind i whose pair does not go on from the one before it; the number of pairs where there is none.
pub fn run_end(codes: &[u32], glyphs: &[u16], i: usize) -> usize
    requires codes_len { length codes.now ≡ length glyphs.now }
    requires i_in_bounds { i < length codes.now }
    ensures { RunEndsAt codes.now glyphs.now i result }
{
    laws::first_from(i + 1, codes.len(), |k| {
        breaks(codes[k - 1], glyphs[k - 1], codes[k], glyphs[k])
    })
}
