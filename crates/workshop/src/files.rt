// Tables and sheets in files.
use crate::advice::table_advice;
use crate::sheet_advice::sheet_advice;
use crate::stop::{Stop, stopped};
use notation::plan::CallPlan;
use sequencer::state::Sequencer;
use std::alloc::{AllocError, Global};
use std::{fmt, fs};
use vocabulary::refusal::Refusal;

// What a file is taken for.
#[derive(Clone, Copy, PartialEq, Eq, Debug)]
pub enum FileKind {
    Table,
    Sheet,
}

impl fmt::Display for FileKind {
    fn fmt<W: fmt::Write>(&self, f: &mut fmt::Formatter<W>) -> fmt::Result {
        f.write_str(match self {
            FileKind::Table => "table",
            FileKind::Sheet => "sheet",
        })
    }
}

impl FileKind {
    // What bytes begin as. A sheet begins with 1 and has 16 in its fourth field. No accepted table begins so: its first node
    // would be an assignment with something in field c.
    pub fn begun_as(bytes: &[u8]) -> FileKind {
        match bytes {
            [1, 0, _, _, _, _, 16, 0, ..] => FileKind::Sheet,
            _ => FileKind::Table,
        }
    }
}

// A file that was given: where it is, what it is taken for, and its bytes.
#[derive(Drop)]
pub struct Given<'a> {
    pub path: &'a str,
    pub form: FileKind,
    pub bytes: Vec<u8>,
}

pub fn read_file(rt: &HostRuntime, path: &str) -> Result<Vec<u8>, Stop> {
    match fs::read(rt, path) {
        Ok(bytes) => Ok(bytes),
        Err(error) => stopped(rt, format_args!("cannot read {path}: {error}")),
    }
}

impl<'a> Given<'a> {
    // A file, taken for what it begins as.
    pub fn read(rt: &HostRuntime, path: &'a str) -> Result<Given<'a>, Stop> {
        let bytes = read_file(rt, path)?;
        Ok(Given {
            path,
            form: FileKind::begun_as(bytes.as_slice()),
            bytes,
        })
    }

    // A file, taken for this.
    pub fn read_as(rt: &HostRuntime, path: &'a str, form: FileKind) -> Result<Given<'a>, Stop> {
        let bytes = read_file(rt, path)?;
        Ok(Given { path, form, bytes })
    }

    // Has the bytes loaded or opened.
    pub fn load(&self, sequencer: &mut Sequencer) -> Result<(), Refusal> {
        match self.form {
            FileKind::Table => sequencer.load(self.bytes.as_slice()),
            FileKind::Sheet => sequencer.open(self.bytes.as_slice()),
        }
    }

    // The call of a session that does the same.
    pub fn into_call(self) -> CallPlan {
        match self.form {
            FileKind::Table => CallPlan::Load(self.bytes),
            FileKind::Sheet => CallPlan::Open(self.bytes),
        }
    }

    // A refusal and what it is about, in two lines; the second is empty where nothing is known.
    pub fn refusal_text(&self, heap: Global, refusal: Refusal) -> Result<String, AllocError> {
        let advice = match self.form {
            FileKind::Table => Some(table_advice(heap, self.bytes.as_slice(), refusal)?),
            FileKind::Sheet => sheet_advice(heap, self.bytes.as_slice(), refusal)?,
        };
        match advice {
            Some(advice) => format!(in heap; "{refusal}\n{advice}"),
            None => format!(in heap; "{refusal}\n"),
        }
    }

    // Has the bytes loaded or opened; a refusal stops the command, with words for standard error.
    pub fn accept(&self, rt: &HostRuntime, sequencer: &mut Sequencer) -> Result<(), Stop> {
        let Err(refusal) = self.load(sequencer) else {
            return Ok(());
        };
        let words = self.refusal_text(rt.alloc(), refusal)?;
        let path = self.path;
        let taken = self.form;
        stopped(
            rt,
            format_args!(
                "{path} is neither a table nor a sheet that is accepted. As a {taken}: {words}"
            ),
        )
    }
}
