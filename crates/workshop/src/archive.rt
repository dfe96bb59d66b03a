// `workshop sheet`: writes the archive sheet of a table.
use crate::files::{FileKind, Given, read_file};
use crate::stop::{Stop, stopped};
use crate::verdict::{InWords, counts_of};
use sequencer::state::Sequencer;
use sheet::layout::{ENTRY, HEADER};
use std::fs;

// No sheet has more: a program has at most 512 nodes and 1537 code words.
const ROOM: usize = HEADER + ENTRY * (512 + 1537);

// The sheet of the program that is loaded.
fn sheet_bytes(rt: &HostRuntime, sequencer: &Sequencer) -> Result<Vec<u8>, Stop> {
    let mut memory = vec![in rt.alloc(); 0u8; ROOM]?;
    match sequencer.archive(memory.as_mut_slice()) {
        Ok(length) => {
            memory.truncate(length);
            Ok(memory)
        }
        Err(refusal) => stopped(rt, refusal),
    }
}

// Writes a file, unless there is one with other bytes: an archive loses no sheet to another.
fn write_new(rt: &HostRuntime, path: &str, bytes: &[u8]) -> Result<(), Stop> {
    if fs::exists(rt, path)? && read_file(rt, path)?.as_slice() != bytes {
        return stopped(
            rt,
            format_args!(
                "{path} is there already, with other bytes; nothing was written. Give another name, or remove it first"
            ),
        );
    }
    if let Err(error) = fs::write(rt, path, bytes) {
        return stopped(rt, format_args!("cannot write {path}: {error}"));
    }
    if read_file(rt, path)?.as_slice() != bytes {
        return stopped(
            rt,
            "what was written does not read back as it was; the file is not a sheet to keep",
        );
    }
    Ok(())
}

pub fn write_sheet_of(rt: &HostRuntime, table: &str, sheet: &str) -> Result<(), Stop> {
    let mut sequencer = Sequencer::new();
    Given::read_as(rt, table, FileKind::Table)?.accept(rt, &mut sequencer)?;
    let written = sheet_bytes(rt, &sequencer)?;
    write_new(rt, sheet, written.as_slice())?;
    let counts = InWords(counts_of(&sequencer));
    let size = written.len();
    println!(rt; "written: {sheet}, {size} bytes: {counts}")?;
    Ok(())
}
