ghost use Rattle.std.specs.Prelude.{◌≡◌, ◌<◌, [], ◌∷◌, length, reverse, MatchResult, OnOk};
ghost use Rattle.vocabulary.specs.Numbers.{operate32};
ghost use Rattle.machine.specs.declared.tables.Stop.TheVariants.{Stuck};
ghost use Rattle.machine.specs.Instructions.{push, operation, is_loc, plain_of, deref, store};
ghost use Rattle.machine.specs.Seen.{seen, after};

use crate::state::Machine;
use crate::tables::Stop;
use vocabulary::code::Operation;
use vocabulary::end::End;
use vocabulary::number::operate;
use vocabulary::value::{Plain, Value};

impl Machine {
    pub(crate) fn push(&mut self, value: Value) -> Result<(), Stop>
        ensures { after result (seen self.new) ≡ push 512 value (seen self.old) }
    {
        self.values.try_push(value)?;
        Ok(())
    }

    // Takes the value on top, if there is one.
    pub(crate) fn pop(&mut self) -> Result<Value, Stop>
        ensures taken { MatchResult result (λ value. reverse self.old.values ≡ value ∷ reverse self.new.values) (λ stop. (stop ≡ Stuck) × (reverse self.old.values ≡ [])) }
        ensures others { self.new ≡ record self.old { values = self.new.values } }
        ensures room { OnOk result (length self.new.values < 512) }
    {
        self.values.pop().ok_or(Stop::Stuck)
    }

    // Pops the right operand, then the left, and pushes the result.
    pub(crate) fn operation(&mut self, operator: Operation) -> Result<(), Stop>
        ensures { after result (seen self.new) ≡ operation operate32 operator (seen self.old).values (seen self.old) }
    {
        let right = self.pop()?;
        let left = self.pop()?;
        let result = operate(operator, left, right)?;
        self.values.push(Value::Plain(result));
        Ok(())
    }

    // Tests the top, and leaves it.
    pub(crate) fn is_loc(&self) -> Result<(), Stop>
        ensures { after result (seen self.now) ≡ is_loc (seen self.now).values (seen self.now) }
    {
        match self.values.last() {
            None => Err(Stop::Stuck),
            Some(Value::Location(_)) => Ok(()),
            Some(Value::Plain(_)) => Err(End::NoLocation.into()),
        }
    }

    // The plain value of a location is its cell's, and any other value is plain.
    pub(crate) fn plain(&self, value: Value) -> Option<Plain>
        ensures { result ≡ plain_of (seen self.now).cells value }
    {
        match value {
            Value::Location(place) => self.cells.get(place as usize),
            Value::Plain(plain) => Some(plain),
        }
    }

    // Turns a location on top into the value of its cell.
    pub(crate) fn deref(&mut self) -> Result<(), Stop>
        ensures { after result (seen self.new) ≡ deref (seen self.old).values (seen self.old) }
    {
        let top = self.pop()?;
        let plain = self.plain(top).ok_or(Stop::Stuck)?;
        self.values.push(Value::Plain(plain));
        Ok(())
    }

    // Pops a value and a location, and writes the cell.
    pub(crate) fn store(&mut self) -> Result<(), Stop>
        ensures { after result (seen self.new) ≡ store (seen self.old).values (seen self.old) }
    {
        let right = self.pop()?;
        let left = self.pop()?;
        let (Value::Location(place), Value::Plain(plain)) = (left, right) else {
            return Err(Stop::Stuck);
        };
        self.cells.set(place as usize, plain)?;
        Ok(())
    }
}
