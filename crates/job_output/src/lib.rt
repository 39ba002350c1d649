// What the program writes: which reply an answer or damaged bytes get, and a reply's bytes.
#![tactic(auto)]

ghost use Rattle.std.specs.Prelude.{◌≡◌, None};
ghost use Rattle.job_output.specs.Output.{head_of, payload_of, refused, Parts};
ghost use Rattle.job_output.specs.Answered.{reply_of, reply_to};

use cmap_promise::{Answer, Unwritten};
use std::slice;

// How many bytes of the work buffer are the result, or the number of a refusal: a number, since `payload` lends it as a slice.
pub type Reply = Result<usize, u8>;

// A reply's mark, and its payload's length in four bytes.
pub fn head(reply: Reply) -> [u8; 6]
    ensures { result ≡ head_of reply }
{
    let (mark, length) = match reply {
        Ok(length) => (*b"OK", length),
        Err(_) => (*b"NO", 1),
    };
    let [_, _, _, _, a, b, c, d] = length.to_be_bytes();
    [mark[0], mark[1], a, b, c, d]
}

// A refusal whole, which the programs write at once: one read can get all of it.
pub fn refusal(number: u8) -> [u8; 7]
    ensures { result ≡ refused number }
{
    [b'N', b'O', 0, 0, 0, 1, number]
}

// The result's bytes, or the number.
pub fn payload<'a>(reply: &'a Reply, buffer: &'a [u8]) -> &'a [u8]
    requires { Parts reply.now buffer.now }
    ensures { result.now ≡ payload_of reply.now buffer.now }
{
    match reply {
        Ok(length) => &buffer[..*length],
        Err(number) => slice::from_ref(number),
    }
}

// 10 is told as the number alone.
pub fn reply_of(answer: Answer) -> Reply
    ensures { result ≡ reply_of answer }
{
    match answer {
        Ok(written) => Ok(written.bytes),
        Err(Unwritten::Refused(refusal)) => Err(refusal.into()),
        Err(Unwritten::NoRoom(_)) => Err(10),
    }
}

pub fn damaged_reply() -> Reply
    ensures { result ≡ reply_to None }
{
    Err(12)
}
