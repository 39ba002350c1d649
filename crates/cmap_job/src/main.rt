// Reads a job from standard input and writes the answer to standard output.
#![tactic(auto)]

use job::INPUT_ROOM;

fn main() {
    let mut out = [0u8; 32768];
    let mut input = [0u8; INPUT_ROOM];
    let n = io::read_full(0, &mut input);
    let reply = job::answer(&input[..n], &mut out);
    if let Err(number) = reply {
        io::write_all(1, &job_output::refusal(number));
        return;
    }
    io::write_all(1, &job_output::head(reply));
    io::write_all(1, job_output::payload(&reply, &out));
}
