// The archive sheet: a program's nodes and code as bytes. A sheet is written in two parts, header and nodes first and then the code,
// and it is opened by reading its header and comparing its code.
#![tactic(auto)]

mod archive;
pub mod contents;
pub mod half;
pub mod layout;
pub mod open;
pub mod theorems;
mod write;
