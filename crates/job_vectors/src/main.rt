// Answers the jobs on standard input, each behind its length in four bytes, and writes the answers one after the other.
#![tactic(auto)]

use job::INPUT_ROOM;

// The next job's length, where the input has not ended.
fn next_length() -> Option<usize> {
    let mut head = [0u8; 4];
    if io::read_full(0, &mut head) < 4 {
        return None;
    }
    Some(u32::from_be_bytes(head) as usize)
}

// Whether a job was there to answer.
fn answer_one() -> bool {
    let Some(length) = next_length() else {
        return false;
    };
    if length > INPUT_ROOM {
        return false;
    }
    let mut out = [0u8; 32768];
    let mut input = [0u8; INPUT_ROOM];
    let n = io::read_full(0, &mut input[..length]);
    let reply = job::answer(&input[..n], &mut out);
    if let Err(number) = reply {
        io::write_all(1, &job_output::refusal(number));
        return true;
    }
    io::write_all(1, &job_output::head(reply));
    io::write_all(1, job_output::payload(&reply, &out));
    true
}

// A proved loop has to end, and nothing says that the input does: no run uses up so many turns.
fn main() {
    for _ in 0..u64::MAX {
        if !answer_one() {
            return;
        }
    }
}
