ghost use Rattle.std.specs.Prelude.{◌≡◌, length, nat_lt};
ghost use Rattle.vocabulary.specs.Tables.{found};
ghost use Rattle.machine.specs.Instructions.{guard, dumped, bind_as, look, bind, new, enter, leave};
ghost use Rattle.machine.specs.Seen.{seen, after, TakenBack};
ghost use Rattle.machine.specs.State.Turn.{goes};

use crate::state::Machine;
use crate::tables::{Bound, Stop};
use vocabulary::value::Value;

impl Machine {
    // Pushes what is bound, `newer` bindings back; a body is no value.
    pub(crate) fn look(&mut self, newer: u16) -> Result<(), Stop>
        ensures { after result (seen self.new) ≡ look 512 (found (seen self.old).environment newer) (seen self.old) }
    {
        let Some(entry) = self.bindings.find(newer) else {
            return Err(Stop::Stuck);
        };
        match entry.what {
            Bound::Holds(value) => self.push(value),
            Bound::Body(_) => Err(Stop::Stuck),
        }
    }

    // A new binding before the present environment.
    #[tactic(auto, using(crate::proofs::Linking::nested_more))]
    pub(crate) fn bind_as(&mut self, what: Bound) -> Result<(), Stop>
        ensures { after result (seen self.new) ≡ bind_as 512 what (seen self.old) }
    {
        self.bindings.bind(what)?;
        Ok(())
    }

    // Binds a popped value.
    pub(crate) fn bind(&mut self) -> Result<(), Stop>
        ensures { after result (seen self.new) ≡ bind 512 (seen self.old).values (seen self.old) }
    {
        let value = self.pop()?;
        self.bind_as(Bound::Holds(value))
    }

    // Binds a new cell that holds a popped value.
    pub(crate) fn new_cell(&mut self) -> Result<(), Stop>
        ensures { after result (seen self.new) ≡ new 512 (seen self.old).values (seen self.old) }
    {
        let Value::Plain(plain) = self.pop()? else {
            return Err(Stop::Stuck);
        };
        let place = self.cells.len() as u16;
        self.cells.try_push(plain)?;
        self.bind_as(Bound::Holds(Value::Location(place)))
    }

    // Puts environment and bindings in use on the dump, with the number that the instruction adds.
    #[tactic(auto, using(crate::proofs::Turning::dump_goes, crate::proofs::Turning::dump_full))]
    pub(crate) fn dump(&mut self, other: usize) -> Result<(), Stop>
        ensures dumped { after result (seen self.new) ≡ guard (nat_lt (length (seen self.old).dump) 512) (goes (dumped other (seen self.old))) }
        ensures bindings { self.new.bindings ≡ self.old.bindings }
    {
        let frame = self.bindings.frame(other);
        self.frames.try_push(frame)?;
        Ok(())
    }

    // Takes environment and bindings in use off the dump, and answers the number that was added.
    #[tactic(auto, using(crate::proofs::Linking::back, crate::proofs::Linking::chains_none))]
    pub(crate) fn take_back(&mut self) -> Result<usize, Stop>
        ensures { TakenBack (seen self.old) (seen self.new) result }
    {
        let frame = self.frames.pop().ok_or(Stop::Stuck)?;
        self.bindings.take_back(frame);
        Ok(frame.other)
    }

    // Begins a block.
    pub(crate) fn enter(&mut self) -> Result<(), Stop>
        ensures { after result (seen self.new) ≡ enter 512 (seen self.old) }
    {
        let cells = self.cells.len();
        self.dump(cells)
    }

    // Ends a block: gives back the bindings and cells made since.
    pub(crate) fn leave(&mut self) -> Result<(), Stop>
        ensures { after result (seen self.new) ≡ leave (seen self.old).dump (seen self.old) }
    {
        let cells = self.take_back()?;
        self.cells.truncate(cells);
        Ok(())
    }
}
