ghost use Rattle.std.specs.Prelude.{◌≡◌};
ghost use Rattle.vocabulary.specs.Ends.{number_of, code_of};
ghost use Rattle.vocabulary.specs.declared.end.End.TheVariants.{Fault as Faulted};

use crate::item::Fault;
use std::fmt;

// Why a take has ended.
#[derive(Clone, Copy, PartialEq, Eq, Debug)]
pub enum End {
    // the program is done
    Halt,
    // the left side of an assignment is no location
    NoLocation,
    // the test of an if, a while or a choice is no truth
    NoTruth,
    // an operand is no number
    NoNumber,
    // a result is beyond 32 bits
    Overflow,
    // a quotient has the divisor 0
    ZeroDivisor,
    // a read finds the feed empty
    Empty,
    // a read finds a fault
    Fault(Fault),
    // an output finds too little space on the strip
    Full,
}

impl End {
    // By cases: a fault carries its code, and only a plain enum's variants have numbers of their own.
    pub fn number(self) -> u8
        ensures { result ≡ number_of self }
    {
        match self {
            End::Halt => 0,
            End::NoLocation => 31,
            End::NoTruth => 32,
            End::NoNumber => 33,
            End::Overflow => 34,
            End::ZeroDivisor => 35,
            End::Empty => 36,
            End::Fault(_) => 37,
            End::Full => 38,
        }
    }

    // The code of the fault that ended the take, and 0 at any other end.
    pub fn code(self) -> u8
        ensures { result ≡ code_of self }
    {
        match self {
            End::Fault(fault) => fault.code,
            _ => 0,
        }
    }
}

// The fault is carried whole into the end.
impl From<Fault> for End {
    ghost from_gives = { λ fault end. end ≡ Faulted fault };

    fn from(fault: Fault) -> End {
        End::Fault(fault)
    }
}

impl fmt::Display for End {
    fn fmt<W: fmt::Write>(&self, f: &mut fmt::Formatter<W>) -> fmt::Result {
        match self {
            End::Halt => f.write_str("the program is done"),
            End::NoLocation => f.write_str("the left side of an assignment is no location"),
            End::NoTruth => f.write_str("a test is no truth"),
            End::NoNumber => f.write_str("an operand is no number"),
            End::Overflow => f.write_str("a result is beyond 32 bits"),
            End::ZeroDivisor => f.write_str("a divisor is 0"),
            End::Empty => f.write_str("the feed is empty"),
            End::Fault(fault) => write!(f, "the feed has fault {}", fault.code),
            End::Full => f.write_str("the strip has too little space"),
        }
    }
}
