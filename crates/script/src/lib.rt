// The lines of a session as `small` and `trials` read them: words between any white space, and numbers as `parse` takes them. That
// is another language than notation's reader accepts: `+5` is a number here, and each space of Unicode is a blank.
#![tactic(auto)]

pub mod error;
pub mod read;
