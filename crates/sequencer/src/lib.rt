// The sequencer: it holds a program and a take of it, and answers calls.
#![tactic(auto)]

mod accept;
mod archive;
mod begin;
pub mod fuel;
mod load;
pub mod program;
pub mod report;
mod rewind;
mod run;
pub mod state;
pub mod take;
