// A session as lines of text: what a line says, how it is written, and how it is read back.
#![tactic(auto)]

pub mod error;
pub mod hex;
pub mod line;
pub mod number;
pub mod plan;
mod reading;
pub mod theorems;
pub mod trace;
pub mod word;
mod writing;
