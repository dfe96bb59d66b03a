ghost use Rattle.std.specs.Prelude.{◌≤◌};

use machine::state::Machine;
use machine::tables::Status;

// A take of a program: the machine and how it stands, the fuel granted so far and the steps carried out.
#[derive(Drop)]
pub struct Take {
    pub(crate) machine: Machine,
    pub(crate) status: Status,
    pub(crate) granted: u32,
    pub(crate) steps: u32,
    ghost paid: { steps ≤ granted },
    ghost bounded: { granted ≤ 1000000000 },
}
