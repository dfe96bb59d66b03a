// Strips over memory that the caller lends: one for each kind of element that values are written as.
ghost use Rattle.std.specs.Prelude.{◌≡◌, ℕ, ◌-◌, ◌≤◌, List, [], length, take};
ghost use Rattle.std.specs.Coded.{Coded-set, coded_list};
ghost use Rattle.vocabulary.specs.declared.value.Plain.{Plain};
ghost use Rattle.ports.specs.Kept.{Kept};
ghost use Rattle.ports.specs.Laws.{kept-stays, kept_goes};
ghost use Rattle.ports.specs.Lent.{Filled, Wrote};

use crate::strip::{Strip, StripFull};
use vocabulary::value::Plain;

// What values are written as, one after the other.
pub trait Element: Copy {
    // How values are written, and which values elements say.
    ghost written: { List Plain → List Self };

    ghost said: { List Self → List Plain };

    ghost nothing_written: { written [] ≡ [] };

    ghost nothing_said: { said [] ≡ [] };

    // How many elements a value takes; no value is free.
    ghost price: { Plain → ℕ };

    ghost costs: { (value : Plain) → 1 ≤ price value };

    // Writes the value at the start of `free`, where there is room, and answers how many elements that took; else nothing
    // changes.
    fn write(value: Plain, free: &mut [Self]) -> Result<usize, StripFull>
        ensures { Wrote price written said value free.old free.new result };
}

// A strip that fills the caller's memory; the first `used` elements are filled. The memory is held whole beside that count,
// since what a strip keeps is said of all of it.
#[derive(Drop)]
pub struct LentStrip<'a, T: Element> {
    memory: &'a mut [T],
    used: usize,
    ghost within: { used ≤ length memory.now },
    ghost whole: { T.written (T.said (take used memory.now)) ≡ take used memory.now } by { Coded-set (coded_list T.code) _ _ },
}

// Copies a line to the start of `free`, where there is room, and answers its length.
pub(crate) fn fill<T: Copy>(line: &[T], free: &mut [T]) -> Result<usize, StripFull>
    ensures { Filled line.now free.old free.new result }
{
    if line.len() > free.len() {
        return Err(StripFull);
    }
    free[..line.len()].copy_from_slice(line);
    Ok(line.len())
}

impl<'a, T: Element> LentStrip<'a, T> {
    pub fn new(memory: &'a mut [T]) -> LentStrip<'a, T>
        ensures held { T.said (take result.used result.memory.now) ≡ [] }
        ensures space { length result.memory.now - result.used ≡ length memory.old }
        ensures memory { result.memory.now ≡ memory.old }
        ensures same { result.memory.ghost_name ≡ memory.entry.ghost_name }
    {
        LentStrip { memory, used: 0 }
    }

    // How many elements are filled.
    pub fn used(&self) -> usize
        ensures { result ≡ length (T.written (T.said (take self.now.used self.now.memory.now))) }
    {
        self.used
    }
}

impl<'a, T: Element> Strip for LentStrip<'a, T> {
    ghost held = { λ s. T.said (take s.used s.memory.now) };

    ghost space = { λ s. length s.memory.now - s.used };

    ghost price = { T.price };

    ghost costs = { T.costs };

    ghost keeps = { λ s t. Kept s.memory t.memory (T.written (T.said (take s.used s.memory.now))) (T.written (T.said (take t.used t.memory.now))) };

    ghost stays = { λ s. kept-stays s.memory s.used _ s.within s.whole };

    ghost goes = { λ s t u h k. kept_goes s.memory t.memory u.memory _ _ _ h k };

    fn put(&mut self, value: Plain) -> Result<(), StripFull> {
        self.used += T::write(value, &mut self.memory[self.used..])?;
        Ok(())
    }
}
