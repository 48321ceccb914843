// The command program's lines: a line asks for a call of the map, and its answer's bytes are put into an output buffer. M is 256 and N 512. What a line asks and how an answer is written is `texts`.
#![tactic(auto)]

mod answer; // answer.rt: what a call's answer is written as
mod all; // all.rt: the listing
mod run; // run.rt: a command on the map
pub mod pieces; // pieces.rt: input that comes in pieces

pub use run::line;
