// The numbers of a job, copied into arrays that are as long as the limits.
#![tactic(auto)]

ghost use Rattle.std.specs.Prelude.{◌≡◌, ◌≤◌, ◌<◌, ℕ, length};
ghost use Rattle.std.proofs.lemmas.List.Edits.{sets};
ghost use Rattle.laws.specs.Select.{each};
ghost use Rattle.job_input.specs.Room.{Payloads};
ghost use Rattle.job_input.specs.Job.{located, job_at, parse, parsed_job};
ghost use Rattle.job_lists.specs.Lent.{no_lists, with_lists};

use job_input::{JOB_KEPT_MAX, JOB_MAP_MAX, JOB_PAIRS_MAX, JOB_REQUESTED_MAX, Places};

// Stores what read gives at 0, 1 and so on in the first n places.
fn fill<T: Copy, F: Fn(usize) -> T>(out: &mut [T], n: usize, read: F)
    requires room { n ≤ length out.old }
    requires readable { (i : ℕ) → i < n → F.pre read i }
    ensures { (f : ℕ → T) → ((i : ℕ) (r : T) → i < n → F.post read i r → r ≡ f i) → out.new ≡ sets out.old 0 (each f n 0) }
{
    for (i, place) in out[..n].iter_mut().enumerate() {
        *place = read(i);
    }
}

// The lists of a job but the source, which stays in the bytes; each stands at the front of its array.
#[derive(Drop)]
pub struct Lists {
    pub codes: [u32; JOB_PAIRS_MAX],
    pub glyphs: [u16; JOB_PAIRS_MAX],
    pub kept: [u32; JOB_KEPT_MAX],
    pub map: [u16; JOB_MAP_MAX],
    pub requested: [u16; JOB_REQUESTED_MAX],
}

impl Lists {
    pub fn new() -> Self
        ensures { result ≡ no_lists }
    {
        Lists {
            codes: [0; JOB_PAIRS_MAX],
            glyphs: [0; JOB_PAIRS_MAX],
            kept: [0; JOB_KEPT_MAX],
            map: [0; JOB_MAP_MAX],
            requested: [0; JOB_REQUESTED_MAX],
        }
    }

    fn fill(&mut self, s: &[u8], places: Places)
        requires { Payloads s.now places }
        ensures { self.new ≡ with_lists self.old (job_at s.now places) }
    {
        let Places {
            source: _,
            pairs,
            kept,
            map,
            requested,
        } = places;
        fill(
            &mut self.codes,
            pairs.count,
            |i| number::u32_at(s, pairs.at + 6 * i),
        );
        fill(
            &mut self.glyphs,
            pairs.count,
            |i| number::u16_at(s, pairs.at + 4 + 6 * i) as u16,
        );
        fill(
            &mut self.kept,
            kept.count,
            |i| number::u32_at(s, kept.at + 4 * i),
        );
        fill(
            &mut self.map,
            map.count,
            |i| number::u16_at(s, map.at + 2 * i) as u16,
        );
        fill(
            &mut self.requested,
            requested.count,
            |i| number::u16_at(s, requested.at + 2 * i) as u16,
        );
    }

    // Copies the job's numbers to the front of the arrays, where its bytes are not damaged.
    pub fn take_apart(&mut self, s: &[u8]) -> Option<Places>
        ensures value { result ≡ located s.now }
        ensures lists_after { self.new ≡ with_lists self.old (parsed_job (parse s.now)) }
    {
        let places = job_input::locate(s)?;
        self.fill(s, places);
        Some(places)
    }
}
