// What all layers speak of: values, items, ends, refusals, nodes, code, and the two things that every layer does
// with them: keep them in bounded tables, and compute with 32-bit numbers.
#![tactic(auto)]

pub mod code;
pub mod end;
pub mod item;
pub mod node;
pub mod number;
pub mod refusal;
pub mod table;
pub mod value;
