ghost use Rattle.std.specs.Prelude.{ℕ, ◌≤◌, List};
ghost use Rattle.vocabulary.specs.declared.value.Plain.{Plain};
ghost use Rattle.ports.specs.Strips.{Put};

use vocabulary::value::Plain;

// A strip has no room for a value: its price is above the space.
#[derive(Clone, Copy, PartialEq, Eq, Debug)]
pub struct StripFull;

// A strip means the list of the values that it holds, and the space left on it.
pub trait Strip {
    ghost held: { Self → List Plain };

    ghost space: { Self → ℕ };

    // What a value takes of the space: the same for all strips of a kind.
    ghost price: { Plain → ℕ };

    // No value is free.
    ghost costs: { (value : Plain) → 1 ≤ price value };

    // What holds between a strip and the same strip later on, however many puts lie between: here a strip over lent
    // memory says what that memory holds. A strip without such memory takes any relation that passes the next two.
    ghost keeps: { Self → Self → Type 0 };

    ghost stays: { (s : Self) → keeps s s };

    ghost goes: { (s t u : Self) → keeps s t → keeps t u → keeps s u };

    // Adds the value at the end, where its price is within the space; else nothing changes.
    fn put(&mut self, value: Plain) -> Result<(), StripFull>
        ensures answer { Put (price value) value (held self.old) (space self.old) (held self.new) (space self.new) result }
        ensures kept { keeps self.old self.new };
}
