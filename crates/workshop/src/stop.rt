// Why a command stopped before its end.
use std::alloc::{AllocError, AllocFailed};
use std::{fmt, io};

#[derive(Drop)]
pub enum Stop {
    // a refusal, which standard output has told
    Told,
    // what is wrong and what to do
    Message(String),
    // no memory, or no way to read or write
    System(io::Error),
}

// No thiserror: it would write the first of these alone, since the others go by way of `io::Error`.
impl From<io::Error> for Stop {
    fn from(error: io::Error) -> Stop {
        Stop::System(error)
    }
}

impl From<AllocError> for Stop {
    fn from(error: AllocError) -> Stop {
        Stop::System(io::Error::from(error))
    }
}

impl<T: Drop> From<AllocFailed<T>> for Stop {
    fn from(error: AllocFailed<T>) -> Stop {
        Stop::System(io::Error::from(error))
    }
}

impl From<fmt::Error> for Stop {
    fn from(error: fmt::Error) -> Stop {
        Stop::System(io::Error::from(error))
    }
}

// A stop with these words.
pub fn stopped<T, D: fmt::Display + Drop>(rt: &HostRuntime, words: D) -> Result<T, Stop> {
    Err(Stop::Message(format!(in rt.alloc(); "{words}")?))
}

// Says on standard error why a command stopped. No Display: a stop that was told says nothing, not even the program's name.
pub fn print_stop(rt: &HostRuntime, stop: Stop) -> io::Result<()> {
    match stop {
        Stop::Told => Ok(()),
        Stop::Message(words) => eprintln!(rt; "workshop: {words}"),
        Stop::System(error) => eprintln!(rt; "workshop: {error}"),
    }
}
