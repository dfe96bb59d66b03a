// The verdict on a table or a sheet, for people: accepted with its counts, or refused with number, node and words.
use crate::files::{FileKind, Given};
use crate::stop::Stop;
use sequencer::state::Sequencer;
use sheet::layout::Counts;
use std::{fmt, io};

// How many there are. A program has at most 512 nodes and 1537 code words.
fn counted<T>(items: &[T]) -> u16 {
    u16::try_from(items.len()).unwrap_or(u16::MAX)
}

// The counts of the program that is loaded.
pub fn counts_of(sequencer: &Sequencer) -> Counts {
    Counts {
        nodes: counted(sequencer.nodes()),
        words: counted(sequencer.code()),
    }
}

// Counts in words.
#[derive(Clone, Copy)]
pub struct InWords(pub Counts);

impl fmt::Display for InWords {
    fn fmt<W: fmt::Write>(&self, f: &mut fmt::Formatter<W>) -> fmt::Result {
        let Counts { nodes, words } = self.0;
        write!(f, "{nodes} nodes, {words} code words")
    }
}

// `workshop check` and `workshop open`: the verdict stands on standard output, and a refusal ends with status 1.
pub fn judge(rt: &HostRuntime, path: &str, form: FileKind) -> Result<(), Stop> {
    let given = Given::read_as(rt, path, form)?;
    let mut sequencer = Sequencer::new();
    match given.load(&mut sequencer) {
        Ok(()) => {
            let counts = counts_of(&sequencer);
            let size = counts.total();
            let words = InWords(counts);
            println!(rt; "accepted: {words}, {size} bytes as a sheet")?;
            Ok(())
        }
        Err(refusal) => {
            rt.println(given.refusal_text(rt.alloc(), refusal)?)?;
            hint(rt, &given)?;
            Err(Stop::Told)
        }
    }
}

// A table given for a sheet, or a sheet for a table.
fn hint(rt: &HostRuntime, given: &Given) -> io::Result<()> {
    match (given.form, FileKind::begun_as(given.bytes.as_slice())) {
        (FileKind::Table, FileKind::Sheet) => rt.println(
            "the file begins as a sheet does: 'workshop open' checks sheets",
        ),
        (FileKind::Sheet, FileKind::Table) => rt.println(
            "the file does not begin as a sheet does: 'workshop check' checks tables",
        ),
        (FileKind::Table, FileKind::Table) | (FileKind::Sheet, FileKind::Sheet) => Ok(()),
    }
}
