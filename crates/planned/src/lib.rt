// Sessions that are planned by lines of text: how the lines make a plan, how it is carried out, and how answers and what is left
// are written.
#![tactic(auto)]

pub mod carry;
pub mod demonstration;
pub mod input;
pub mod plan;
pub mod show;
#[cfg(test)]
mod tests;
pub mod whole;
