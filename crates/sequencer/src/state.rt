use crate::program::Program;
use crate::take::Take;

// A program, if one was accepted, and a take of it.
#[derive(Drop)]
pub struct Sequencer {
    pub(crate) program: Option<Program>,
    pub(crate) take: Take,
}
