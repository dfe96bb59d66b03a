// The calls of the sequencer for C and Rust (`rt lib`; include/small.h declares them).
//
// Pinned by the contracts of `calls`, for every input: which refusal and which node a check, an opening or a sheet answers, and
// every byte of the memory after a sheet was written; of a run the whole outcome (refusal, end, node, code, steps, samples left,
// what is filled) and every byte or record of the memory, by the steps of the table's code, and by the law of takes, so by what
// the tree means. How the fuel is cut into runs shows nowhere.
//
// Not pinned, and owed by a caller outside of Rattle: that pointers and lengths are good, and that what is lent for writing
// overlaps with nothing else. Nothing is said of time and stack.
#![tactic(auto)]

pub mod answers;
pub mod calls;
mod perform;
