// Where a program's readings come from and where its values go: feeds and strips, the four that an instrument has,
// and the two traits by which anyone adds one.
#![tactic(auto)]

pub mod copy;
pub mod feed;
pub mod lent;
pub mod ramp;
pub mod records;
pub mod strip;
pub mod text;
pub mod trace;
