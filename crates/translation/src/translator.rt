ghost use Rattle.std.specs.Prelude.{◌≡◌, ◌<◌, length, []};
ghost use Rattle.language.specs.Table.{at};

use crate::Code;
use crate::scope::Scope;
use crate::writer::Writer;
use language::check::Shaped;
use vocabulary::node::Node;

// What a translation works on: the nodes, the code written so far, and the names that are visible.
#[derive(Drop)]
pub struct Translator<'a> {
    pub shaped: Shaped<'a>,
    pub code: Writer,
    pub scope: Scope,
}

// Restores the count of visible names at the end of a block or a body, by acceptance or refusal alike.
pub struct Mark<'t, 'a> {
    pub translator: &'t mut Translator<'a>,
    pub was: usize,
}

impl Drop for Mark<'_, '_> {
    ghost use Rattle.translation.specs.Translated.{Restored};

    fn drop(self)
        ensures { Restored self.entry.was self.entry.translator.now self.exit.0.now }
    {
        let Mark { translator, was } = self;
        translator.scope.entries.truncate(was);
    }
}

impl<'a> Translator<'a> {
    ghost use Rattle.translation.specs.Held.{text, visible};
    ghost use Rattle.translation.specs.Translated.{nodes};

    // Nothing is written yet, and no name is visible.
    pub fn new(shaped: Shaped<'a>) -> Translator<'a>
        ensures nodes { nodes result ≡ shaped.entry.nodes.now }
        ensures code { text result.code ≡ [] }
        ensures scope { visible result.scope ≡ [] }
    {
        Translator {
            shaped,
            code: Writer::new(),
            scope: Scope::new(),
        }
    }

    pub fn node(&self, n: u16) -> Node
        requires { n < length (nodes self.now) }
        ensures { result ≡ at (nodes self.now) n }
    {
        self.shaped.nodes()[usize::from(n)]
    }

    pub fn into_code(self) -> Code
        ensures { result ≡ text self.entry.code }
    {
        let Translator {
            shaped: _,
            code: Writer { words },
            scope: _,
        } = self;
        words
    }
}
