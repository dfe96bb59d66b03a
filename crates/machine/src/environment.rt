ghost use Rattle.std.specs.Prelude.{◌≡◌, ◌≤◌, true, [], length, reverse, drop, is_ok, if◌then◌else◌};
ghost use Rattle.vocabulary.specs.Appending.{Added};
ghost use Rattle.vocabulary.specs.Tables.{oldest};
ghost use Rattle.machine.specs.Links.{chain, reach, linked, Opened, Found};

use crate::tables::{Bound, Entry, Frame};
use vocabulary::table::{Table, TableFull};
use vocabulary::value::{Plain, Value};

// The bindings in use, and the present environment among them. Entries name one another by number, since there is no heap.
#[derive(Drop)]
pub struct Bindings {
    pub(crate) entries: Table<Entry, 512>,
    pub(crate) env: Option<u16>,
    ghost older: { linked (reverse entries) ≡ true },
    ghost among: { reach env ≤ length entries },
}

impl Bindings {
    // No binding.
    #[tactic(auto, unfolding(crate::specs::Links::linked))]
    pub(crate) fn new() -> Bindings
        ensures entries { result.entries ≡ [] }
        ensures env { result.env ≡ None }
    {
        let blank = Entry {
            what: Bound::Holds(Value::Plain(Plain::Truth(false))),
            below: None,
        };
        Bindings {
            entries: Table::new(blank),
            env: None,
        }
    }

    // As if new.
    #[tactic(auto, unfolding(crate::specs::Links::linked))]
    pub(crate) fn clear(&mut self)
        ensures entries { self.new.entries ≡ [] }
        ensures env { self.new.env ≡ None }
    {
        self.entries.clear();
        self.env = None;
    }

    // The newest entry of an environment.
    #[tactic(auto, using(crate::proofs::Linking::chain_none, crate::proofs::Linking::entry_some))]
    fn newest(&self, env: Option<u16>) -> Option<Entry>
        ensures { Opened (reverse self.now.entries) (reach env) result }
    {
        self.entries.get(env? as usize)
    }

    // The environment below the newest entry of an environment; below none it is empty.
    #[tactic(auto, using(crate::proofs::Linking::outer_at, crate::proofs::Linking::outer_none))]
    fn outer(&self, env: Option<u16>) -> Option<u16>
        ensures { chain (reverse self.now.entries) (reach result) ≡ drop 1 (chain (reverse self.now.entries) (reach env)) }
    {
        self.newest(env)?.below
    }

    // The environment behind the `newer` newest entries of the present one. The walk moves numbers, and no entries.
    fn behind(&self, newer: u16) -> Option<u16>
        ensures { chain (reverse self.now.entries) (reach result) ≡ drop newer (chain (reverse self.now.entries) (reach self.now.env)) }
    {
        (0..newer).fold(self.env, |env, _| self.outer(env))
    }

    // The entry with `newer` newer ones in the present environment.
    #[tactic(auto, using(crate::proofs::Linking::find_at))]
    pub(crate) fn find(&self, newer: u16) -> Option<Entry>
        ensures { Found (reverse self.now.entries) (reach self.now.env) newer result }
    {
        self.newest(self.behind(newer))
    }

    // A new binding before the present environment.
    #[tactic(auto, using(crate::proofs::Linking::linked_more, crate::proofs::Linking::one_more))]
    pub(crate) fn bind(&mut self, what: Bound) -> Result<(), TableFull>
        ensures added { Added 512 self.old.entries self.new.entries (record { what = what; below = self.old.env }) result }
        ensures env { self.new.env ≡ (if is_ok result then Some (length self.old.entries) else self.old.env) }
    {
        let place = self.entries.len() as u16;
        self.entries.try_push(Entry {
            what,
            below: self.env,
        })?;
        self.env = Some(place);
        Ok(())
    }

    // Another environment among the same bindings.
    pub(crate) fn enter(&mut self, env: Option<u16>)
        requires { reach env ≤ length self.old.entries }
        ensures entries { self.new.entries ≡ self.old.entries }
        ensures env { self.new.env ≡ env }
    {
        self.env = env;
    }

    // What a frame keeps of the bindings.
    pub(crate) fn frame(&self, other: usize) -> Frame
        ensures { result ≡ record { env = self.now.env; bound = length self.now.entries; other = other } }
    {
        Frame {
            env: self.env,
            bound: self.entries.len() as u16,
            other,
        }
    }

    // Gives back the bindings made since a frame, and its environment is the present one again.
    #[tactic(auto, using(crate::proofs::Linking::linked_less, crate::proofs::Linking::among_less))]
    pub(crate) fn take_back(&mut self, frame: Frame)
        requires bound { frame.bound ≤ length self.old.entries }
        requires env { reach frame.env ≤ frame.bound }
        ensures entries { reverse self.new.entries ≡ oldest frame.bound (reverse self.old.entries) }
        ensures env { self.new.env ≡ frame.env }
    {
        self.entries.truncate(frame.bound as usize);
        self.env = frame.env;
    }
}
