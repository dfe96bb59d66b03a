// The language Small: what a table of nodes has to keep, the tree that it holds, its names, its code and its meaning.
#![tactic(auto)]

pub mod check;
pub mod form;
pub mod kind;
pub mod name;
pub mod read;
pub mod rules;
pub mod theorems;
