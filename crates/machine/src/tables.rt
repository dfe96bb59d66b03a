ghost use Rattle.std.specs.Prelude.{◌≡◌};
ghost use Rattle.vocabulary.specs.declared.end.End.TheVariants.{Full};
ghost use Rattle.machine.specs.declared.tables.Stop.TheVariants.{Ended, Stuck};

use ports::strip::StripFull;
use vocabulary::end::End;
use vocabulary::table::{NotInUse, TableFull};
use vocabulary::value::Value;

// What a name is bound to: a value, or the position of a routine's body. What the body sees is the environment below its
// own entry. Two sorts of binding, neither the failure of the other: so no Result.
#[derive(Clone, Copy, PartialEq, Eq, Debug)]
pub enum Bound {
    Holds(Value),
    Body(u16),
}

// A binding, and the environment below it. An environment is none, or what begins with the entry of a number.
#[derive(Clone, Copy, PartialEq, Eq, Debug)]
pub struct Entry {
    pub what: Bound,
    pub below: Option<u16>,
}

// What ENTER or CALL puts on the dump: the environment, the bindings in use, and the cells in use (ENTER) or the next
// position (CALL). One number for both, as in the definition: RET and LEAVE take whichever frame lies on top.
#[derive(Clone, Copy, PartialEq, Eq, Debug)]
pub struct Frame {
    pub env: Option<u16>,
    pub bound: u16,
    pub other: usize,
}

// Why the machine goes no further: it has ended, or it cannot go on at all. The last never comes for translated code.
#[derive(Clone, Copy, PartialEq, Eq, Debug)]
pub enum Stop {
    Ended(End),
    Stuck,
}

impl From<End> for Stop {
    ghost from_gives = { λ end stop. stop ≡ Ended end };

    fn from(end: End) -> Stop {
        Stop::Ended(end)
    }
}

impl From<TableFull> for Stop {
    ghost from_gives = { λ _ stop. stop ≡ Stuck };

    fn from(_full: TableFull) -> Stop {
        Stop::Stuck
    }
}

impl From<NotInUse> for Stop {
    ghost from_gives = { λ _ stop. stop ≡ Stuck };

    fn from(_place: NotInUse) -> Stop {
        Stop::Stuck
    }
}

impl From<StripFull> for Stop {
    ghost from_gives = { λ _ stop. stop ≡ Ended Full };

    fn from(_full: StripFull) -> Stop {
        Stop::Ended(End::Full)
    }
}

// How the machine stands after a step, with the node of an end: three states, of which none is a failure, so no Result.
#[derive(Clone, Copy, PartialEq, Eq, Debug)]
pub enum Status {
    Running,
    Halted(End, u16),
    Broken,
}

// What a run answers: how the machine stands, and how many steps were carried out.
#[derive(Clone, Copy, PartialEq, Eq, Debug)]
pub struct Ran {
    pub status: Status,
    pub steps: u32,
}
