ghost use Rattle.std.specs.Prelude.{◌≡◌};
ghost use Rattle.machine.specs.Instructions.{jump_false, goto, call, ret};
ghost use Rattle.machine.specs.Seen.{seen, after};

use crate::state::Machine;
use crate::tables::{Bound, Stop};
use vocabulary::end::End;
use vocabulary::value::{Plain, Value};

impl Machine {
    pub(crate) fn jump(&mut self, to: u16)
        ensures { seen self.new ≡ goto to (seen self.old) }
    {
        self.position = to as usize;
    }

    // Pops a truth, and jumps if it is false.
    pub(crate) fn jump_false(&mut self, to: u16) -> Result<(), Stop>
        ensures { after result (seen self.new) ≡ jump_false to (seen self.old).values (seen self.old) }
    {
        let Value::Plain(Plain::Truth(truth)) = self.pop()? else {
            return Err(End::NoTruth.into());
        };
        if truth {
            return Ok(());
        }
        self.jump(to);
        Ok(())
    }

    // The body runs in the environment below its own entry, not in the caller's.
    #[tactic(auto, using(crate::proofs::Linking::nested_in))]
    pub(crate) fn call(&mut self, newer: u16) -> Result<(), Stop>
        ensures { after result (seen self.new) ≡ call 512 newer (seen self.old).values (seen self.old) }
    {
        let argument = self.pop()?;
        let Some(closure) = self.bindings.find(newer) else {
            return Err(Stop::Stuck);
        };
        let Bound::Body(body) = closure.what else {
            return Err(Stop::Stuck);
        };
        self.dump(self.position)?;
        self.bindings.enter(closure.below);
        self.jump(body);
        self.bind_as(Bound::Holds(argument))
    }

    // Gives back the bindings made since the call.
    pub(crate) fn ret(&mut self) -> Result<(), Stop>
        ensures { after result (seen self.new) ≡ ret (seen self.old).dump (seen self.old) }
    {
        self.position = self.take_back()?;
        Ok(())
    }
}
