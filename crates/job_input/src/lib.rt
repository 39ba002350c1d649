// A job's bytes taken apart: where its five records stand.
#![tactic(auto)]

ghost use Rattle.std.specs.Prelude.{◌≡◌, ◌≤◌};
ghost use Rattle.job_input.specs.Job.{within, field_at, located};

// The marks.
const TB: u32 = 0x5442;

const PR: u32 = 0x5052;

const KP: u32 = 0x4B50;

const MP: u32 = 0x4D50;

const RQ: u32 = 0x5251;

// The limits, in entries.
pub const JOB_SOURCE_MAX: usize = 32768;

pub const JOB_PAIRS_MAX: usize = 2048;

pub const JOB_KEPT_MAX: usize = 4096;

pub const JOB_MAP_MAX: usize = 8192;

pub const JOB_REQUESTED_MAX: usize = 2048;

// A record's payload: where it starts, how many entries it has, and where the next record starts.
#[derive(Clone, Copy)]
pub struct Field {
    pub at: usize,
    pub count: usize,
    pub end: usize,
}

#[derive(Clone, Copy)]
pub struct Places {
    pub source: Field,
    pub pairs: Field,
    pub kept: Field,
    pub map: Field,
    pub requested: Field,
}

// Whether n bytes are whole entries of that width, and not too many.
fn is_within(width: usize, most: usize, n: usize) -> bool
    requires { 1 ≤ width }
    ensures { result ≡ within width most n }
{
    n % width == 0 && n / width <= most
}

fn field_at(mark: u32, width: usize, most: usize, s: &[u8], at: usize) -> Option<Field>
    requires { 1 ≤ width }
    ensures { result ≡ field_at mark width most s.now at }
{
    let n = s.len();
    if n < 6 || n - 6 < at || number::u16_at(s, at) != mark {
        return None;
    }
    let size = number::u32_at(s, at + 2) as usize;
    if n - 6 - at < size || !is_within(width, most, size) {
        return None;
    }
    Some(Field {
        at: at + 6,
        count: size / width,
        end: at + 6 + size,
    })
}

// Where the five records stand, with nothing behind them.
pub fn locate(s: &[u8]) -> Option<Places>
    ensures { result ≡ located s.now }
{
    let source = field_at(TB, 1, JOB_SOURCE_MAX, s, 0)?;
    let pairs = field_at(PR, 6, JOB_PAIRS_MAX, s, source.end)?;
    let kept = field_at(KP, 4, JOB_KEPT_MAX, s, pairs.end)?;
    let map = field_at(MP, 2, JOB_MAP_MAX, s, kept.end)?;
    let requested = field_at(RQ, 2, JOB_REQUESTED_MAX, s, map.end)?;
    if requested.end != s.len() {
        return None;
    }
    Some(Places {
        source,
        pairs,
        kept,
        map,
        requested,
    })
}
