// The text of the command program: what a line asks, and bytes and numbers put into an output buffer. Nothing here knows of an image.
#![tactic(auto)]

pub mod print; // print.rt: bytes and numbers into the output
mod digits; // digits.rt: numbers out of a line
pub mod parse; // parse.rt: what a line asks

use keys::Key;
use records::Value;

// What a line asks. `Bad` is a command of its own: `bad_exactly` (accepted_commands) says when a line is one.
#[derive(Clone, Copy)]
pub enum Command {
    Insert(Key, Value),
    Remove(Key),
    Get(Key),
    Write(Key, Value),
    Smallest,
    Largest,
    All,
    Bad,
}
