// A table with a stated maximum, which lies in the value itself and takes no heap. Clauses see the list of its items, the oldest first.
// The one append serves code words, names, values, bindings, cells and frames.
ghost use Rattle.std.specs.Prelude.{◌≡◌, ◌==◌, ◌<◌, ◌≤◌, [], ◌++◌, ◌∷◌, length, reverse, take, OnSome};
ghost use Rattle.vocabulary.specs.Appending.{Added, Pushed, Popped, Stored};
ghost use Rattle.vocabulary.specs.Tables.{found, oldest, first_of};

use std::marker::Model;

// An append found no place free.
#[derive(Clone, Copy, PartialEq, Eq, Debug)]
pub struct TableFull;

// A write was to a place that is not in use.
#[derive(Clone, Copy, PartialEq, Eq, Debug)]
pub struct NotInUse;

// Fixed memory: the kit's `ArrayVec` would write a blank over each place that is given back, and so work as long as a block has
// cells.
#[derive(Drop)]
pub struct Table<T, const MOST: usize> {
    places: [T; MOST],
    count: usize,
}

impl<T, const MOST: usize> Model for Table<T, MOST> {
    ghost use Rattle.std.specs.Prelude.{◌≡◌, ◌≤◌, List, length, take};
    ghost use Rattle.std.specs.Coded.{coded_list};

    ghost Value = { List T };

    ghost coded = { coded_list T.code };

    ghost view = { λ t. take t.count t.places };

    ghost invariant = { λ t. (t.count ≤ MOST) × (length t.places ≡ MOST) };
}

impl<T: Copy, const MOST: usize> Table<T, MOST> {
    // An empty table. What no item takes holds the blank, which shows nowhere.
    pub fn new(blank: T) -> Self
        ensures { result ≡ [] }
    {
        Table {
            places: [blank; MOST],
            count: 0,
        }
    }

    pub fn len(&self) -> usize
        ensures value { result ≡ length self.now }
        ensures few { result ≤ MOST }
    {
        self.count
    }

    pub fn is_empty(&self) -> bool
        ensures { result ≡ (length self.now == 0) }
    {
        self.count == 0
    }

    // The items, the oldest first.
    pub fn as_slice(&self) -> &[T]
        ensures value { result.now ≡ self.now }
        ensures few { length result.now ≤ MOST }
    {
        &self.places[..self.count]
    }

    // Adds behind all others, where there is a place for it.
    pub fn push(&mut self, item: T)
        requires { length self.old < MOST }
        ensures fronted { self.new ≡ self.old ++ item ∷ [] }
        ensures stacked { reverse self.new ≡ item ∷ reverse self.old }
    {
        self.places[self.count] = item;
        self.count += 1;
    }

    // Adds behind all others, unless the table is full.
    pub fn try_push(&mut self, item: T) -> Result<(), TableFull>
        ensures fronted { Added MOST self.old self.new item result }
        ensures stacked { Pushed MOST (reverse self.old) (reverse self.new) item result }
    {
        if self.count == MOST {
            return Err(TableFull);
        }
        self.push(item);
        Ok(())
    }

    // Takes the newest, if there is one.
    pub fn pop(&mut self) -> Option<T>
        ensures stacked { Popped (reverse self.old) (reverse self.new) result }
        ensures room { OnSome result (length self.new < MOST) }
    {
        if self.count == 0 {
            return None;
        }
        self.count -= 1;
        Some(self.places[self.count])
    }

    // The newest, which stays.
    pub fn last(&self) -> Option<T>
        ensures { result ≡ first_of (reverse self.now) }
    {
        self.as_slice().last().copied()
    }

    // The item at a place, counted from the oldest.
    pub fn get(&self, place: usize) -> Option<T>
        ensures { result ≡ found self.now place }
    {
        self.as_slice().get(place).copied()
    }

    // Writes at a place that is in use.
    pub fn set(&mut self, place: usize, item: T) -> Result<(), NotInUse>
        ensures { Stored self.old self.new place item result }
    {
        if place >= self.count {
            return Err(NotInUse);
        }
        self.places[place] = item;
        Ok(())
    }

    // Gives back what came after the first `to`; nothing is written.
    pub fn truncate(&mut self, to: usize)
        ensures fronted { self.new ≡ take to self.old }
        ensures stacked { reverse self.new ≡ oldest to (reverse self.old) }
    {
        self.count = self.count.min(to);
    }

    pub fn clear(&mut self)
        ensures { self.new ≡ [] }
    {
        self.count = 0;
    }
}
