// The machine: an instruction a function, a step, and a run between a feed and a strip.
#![tactic(auto)]

mod control;
mod environment;
mod fresh;
mod io;
mod run;
mod scope;
mod stack;
pub mod state;
mod step;
pub mod tables;
