// A job's bytes answered.
#![tactic(auto)]

ghost use Rattle.std.specs.Prelude.{◌≡◌, length};
ghost use Rattle.job_input.specs.Job.{parse, job_at};
ghost use Rattle.job_lists.specs.Lent.{ListsHeld};
ghost use Rattle.job_output.specs.Output.{written_by, Parts};
ghost use Rattle.cmap_promise.specs.Cmap.{answer_of, output_of};
ghost use Rattle.job_output.specs.Answered.{room, answered, reply_to, left_by};

use cmap_promise::Answer;
use job_input::Places;
use job_lists::Lists;
use job_output::Reply;
use plan_listing::Job;

// One byte more than the longest job: what is longer is damaged, whatever follows (`enough_read`).
pub const INPUT_ROOM: usize = 81951;

// The source and the lists, each as long as its record says, lent to the call.
fn subset_at(bytes: &[u8], places: Places, lists: &Lists, out: &mut [u8]) -> Answer
    requires { ListsHeld bytes.now places lists.now }
    ensures value { result ≡ answer_of (job_at bytes.now places) (length out.old) }
    ensures out_after { out.new ≡ output_of (job_at bytes.now places) out.old }
{
    let Places {
        source,
        pairs,
        kept,
        map,
        requested,
    } = places;
    let job = Job {
        source: &bytes[source.at..source.at + source.count],
        codes: &lists.codes[..pairs.count],
        glyphs: &lists.glyphs[..pairs.count],
        kept: &lists.kept[..kept.count],
        map: &lists.map[..map.count],
        requested: &lists.requested[..requested.count],
    };
    cmap::subset(&job, out)
}

// The whole of the program but reading and writing: what its reply writes is what the job asks for.
pub fn answer(bytes: &[u8], out: &mut [u8; 32768]) -> Reply
    ensures value { result ≡ reply_to (parse bytes.now) }
    ensures out_after { out.new ≡ left_by (parse bytes.now) out.old }
    ensures written { written_by result out.new ≡ answered (parse bytes.now) }
    ensures parts { Parts result out.new }
{
    let mut lists = Lists::new();
    let Some(places) = lists.take_apart(bytes) else {
        return job_output::damaged_reply();
    };
    job_output::reply_of(subset_at(bytes, places, &lists, out))
}
