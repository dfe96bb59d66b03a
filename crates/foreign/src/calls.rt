// The calls. A slice crosses as a pointer and a length; what is lent for writing overlaps with nothing else that is lent.
ghost use Rattle.std.specs.Prelude.{◌≡◌};
ghost use Rattle.language.specs.Verdicts.{table_verdict};
ghost use Rattle.sheet.specs.Sheets.{open_verdict};
ghost use Rattle.ports.specs.Lines.{line_length, text_of};
ghost use Rattle.ports.specs.Records.{one, records_of};
ghost use Rattle.ports.specs.Traces.{items_of};
ghost use Rattle.foreign.specs.Answers.{checked_of, written_of};
ghost use Rattle.foreign.specs.Calls.{sheet_answer, sheet_memory, Runs};

use crate::answers::{Checked, Outcome, Written};
use crate::perform::perform;
use ports::lent::{Element, LentStrip};
use ports::records::OutRecord;
use ports::trace::{Record, Trace};
use sequencer::program::Program;
use sequencer::state::Sequencer;
use vocabulary::refusal::Refusal;

// Whether a table is accepted.
#[unsafe(no_mangle)]
pub extern "C" fn small_check(table: &[u8]) -> Checked
    ensures { result ≡ checked_of (table_verdict table.now) }
{
    Program::check(table).into()
}

// Whether a sheet is accepted.
#[unsafe(no_mangle)]
pub extern "C" fn small_open(sheet: &[u8]) -> Checked
    ensures { result ≡ checked_of (open_verdict sheet.now) }
{
    Program::accept_sheet(sheet).into()
}

fn archive(table: &[u8], memory: &mut [u8]) -> Result<usize, Refusal>
    ensures answer { result ≡ sheet_answer table.now memory.old }
    ensures memory { memory.new ≡ sheet_memory table.now memory.old }
{
    let mut sequencer = Sequencer::new();
    sequencer.load(table)?;
    sequencer.archive(memory)
}

// Writes the sheet of a table at the start of the memory.
#[unsafe(no_mangle)]
pub extern "C" fn small_sheet(table: &[u8], memory: &mut [u8]) -> Written
    ensures answer { result ≡ written_of (sheet_answer table.now memory.old) }
    ensures memory { memory.new ≡ sheet_memory table.now memory.old }
{
    archive(table, memory).into()
}

// Carries out a table between samples and lent memory, whatever is written on it.
fn run_onto<T: Element>(table: &[u8], samples: &[Record], memory: &mut [T], fuel: u32) -> Outcome
    ensures { Runs T.Element.price T.Element.written table.now fuel (items_of samples.now) memory.old memory.new result }
{
    let mut feed = Trace::new(samples);
    let mut strip = LentStrip::new(memory);
    let told = perform(table, fuel, &mut feed, &mut strip);
    Outcome {
        left: feed.left(),
        filled: strip.used(),
        ..told.into()
    }
}

// Carries out a table between samples and lines of text.
#[unsafe(no_mangle)]
pub extern "C" fn small_run_text(
    table: &[u8],
    samples: &[Record],
    text: &mut [u8],
    fuel: u32,
) -> Outcome
    ensures { Runs line_length text_of table.now fuel (items_of samples.now) text.old text.new result }
{
    run_onto(table, samples, text, fuel)
}

// Carries out a table between samples and records.
#[unsafe(no_mangle)]
pub extern "C" fn small_run_data(
    table: &[u8],
    samples: &[Record],
    memory: &mut [OutRecord],
    fuel: u32,
) -> Outcome
    ensures { Runs one records_of table.now fuel (items_of samples.now) memory.old memory.new result }
{
    run_onto(table, samples, memory, fuel)
}
