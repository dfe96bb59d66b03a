// Why a line cannot be read: a sentence that says what is wrong, where, and what would be right.
ghost use Rattle.std.specs.Prelude.{◌≡◌};
ghost use Rattle.notation.specs.declared.error.ReadError.TheVariants.{Memory, Word};

use std::alloc::{AllocError, AllocFailed};
use std::fmt;
use thiserror::Error;

// What a word was to say. Items of a trace are counted from 1.
#[derive(Clone, Copy, Debug, PartialEq, Eq)]
pub enum Wanted {
    Table,
    Sheet,
    Fuel,
    RecordCount,
    ByteCount,
    Start,
    Step,
    Count,
    Reading(usize),
    FaultCode(usize),
}

// A byte as it is shown in a message: itself where it can be printed, and else its number in base 16.
#[derive(Clone, Copy, Debug, PartialEq, Eq)]
pub struct Shown(pub u8);

// What is wrong with a word. Places are counted from 1, in bytes of the word.
#[derive(Clone, Copy, Debug, PartialEq, Eq, Error)]
pub enum WordError {
    // the line ends where the word was to come
    #[error("a word is missing")]
    Missing,
    // the word ends where a digit was to come
    #[error("the word has no digit")]
    NoDigits,
    #[error("{found} at place {place} is no digit 0 to 9")]
    NoDigit { place: usize, found: Shown },
    #[error("the number is out of range")]
    OutOfRange,
    #[error("{found} at place {place} is no digit 0 to 9 or a to f")]
    NoHexDigit { place: usize, found: Shown },
    #[error("hex digits come in pairs, and the last is alone")]
    OddDigits,
}

#[derive(Clone, Copy, Debug, PartialEq, Eq, Error)]
pub enum ReadError {
    // no line begins with this word
    #[error("no such line is known: a line begins with feed, strip, load, open, rewind, run or report")]
    UnknownLine,
    #[error("`feed` wants `trace` and its items, or `ramp START STEP COUNT`")]
    UnknownFeed,
    #[error("`strip` wants `records N` or `text N`")]
    UnknownStrip,
    // a word does not say what it was to say
    #[error("{error}: wanted is {wanted}")]
    Word { wanted: Wanted, error: WordError },
    // a word stands behind the last that the line may have
    #[error("the line has a word too many: begin a comment with #")]
    TooManyWords,
    #[error("there is no memory for what the line holds")]
    Memory,
}

impl From<AllocError> for ReadError {
    ghost from_gives = { λ _ r. r ≡ Memory };

    fn from(_e: AllocError) -> ReadError {
        ReadError::Memory
    }
}

impl<T: Drop> From<AllocFailed<T>> for ReadError {
    ghost from_gives = { λ _ r. r ≡ Memory };

    fn from(_e: AllocFailed<T>) -> ReadError {
        ReadError::Memory
    }
}

impl Wanted {
    // Why the line cannot be read, where a word is wrong.
    pub fn missed(self, error: WordError) -> ReadError
        ensures { result ≡ Word self error }
    {
        ReadError::Word {
            wanted: self,
            error,
        }
    }
}

impl fmt::Display for Wanted {
    fn fmt<W: fmt::Write>(&self, f: &mut fmt::Formatter<W>) -> fmt::Result {
        match self {
            Wanted::Table => f.write_str(
                "the table of `load`, two hex digits a byte, or - for no bytes",
            ),
            Wanted::Sheet => f.write_str(
                "the sheet of `open`, two hex digits a byte, or - for no bytes",
            ),
            Wanted::Fuel => write!(f, "the fuel of `run`, a number from 0 to {}", u32::MAX),
            Wanted::RecordCount => {
                write!(
                    f,
                    "the number of records of the strip, from 0 to {}",
                    usize::MAX
                )
            }
            Wanted::ByteCount => {
                write!(
                    f,
                    "the number of bytes of the strip, from 0 to {}",
                    usize::MAX
                )
            }
            Wanted::Start => write!(
                f,
                "the start of the ramp, a number from {} to {}",
                i32::MIN,
                i32::MAX
            ),
            Wanted::Step => write!(
                f,
                "the step of the ramp, a number from {} to {}",
                i32::MIN,
                i32::MAX
            ),
            Wanted::Count => write!(f, "the count of the ramp, a number from 0 to {}", u16::MAX),
            Wanted::Reading(item) => write!(
                f,
                "item {item} of the trace, a number from {} to {} or a fault as fault:3",
                i32::MIN,
                i32::MAX
            ),
            Wanted::FaultCode(item) => write!(
                f,
                "item {item} of the trace, a fault whose code is a number from 1 to {}",
                u8::MAX
            ),
        }
    }
}

impl fmt::Display for Shown {
    fn fmt<W: fmt::Write>(&self, f: &mut fmt::Formatter<W>) -> fmt::Result {
        let byte = self.0;
        if byte.is_ascii_graphic() {
            let character = char::from(byte);
            write!(f, "`{character}`")
        } else {
            write!(f, "byte 0x{byte:02x}")
        }
    }
}
