// What each print head prints for a code point, by a table of any length, and why it prints nothing. There are no functions here.
#![tactic(auto)]

// Refusals 5 and 11: a header that is none, and a table that holds nothing this head can read.
#[derive(Clone, Copy)]
pub enum HeadRefusal {
    BadHeader,
    NothingReadable,
}
