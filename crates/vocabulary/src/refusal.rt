ghost use Rattle.std.specs.Prelude.{◌≡◌};
ghost use Rattle.vocabulary.specs.Refusals.{cause_number, refusal};

use std::error::Error;
use std::fmt;

// Why a call is refused, in the order of the numbers 1 to 16.
#[derive(Clone, Copy, PartialEq, Eq, Debug)]
pub enum Cause {
    NoProgram = 1,
    TableLength,
    FieldRule,
    ChildNotLower,
    ChildSort,
    NotOneParent,
    RootNotCommand,
    NameNotVisible,
    NameRole,
    Fuel,
    TakeEnded,
    MemoryShort,
    NotThisHalf,
    SheetHeader,
    NotTheTranslation,
    RampRange,
}

// A refusal: its cause, and the node at fault, which is 0 where no node is.
#[derive(Clone, Copy, PartialEq, Eq, Debug)]
pub struct Refusal {
    pub cause: Cause,
    pub node: u16,
}

impl Cause {
    pub fn number(self) -> u8
        ensures { result ≡ cause_number self }
    {
        self as u8
    }

    // A refusal for this cause, at a node.
    pub fn at(self, node: u16) -> Refusal
        ensures { result ≡ refusal self node }
    {
        Refusal { cause: self, node }
    }

    // Whether the cause is about one node of a table.
    fn is_about_a_node(self) -> bool {
        matches!(
            self,
            Cause::FieldRule
                | Cause::ChildNotLower
                | Cause::ChildSort
                | Cause::NotOneParent
                | Cause::RootNotCommand
                | Cause::NameNotVisible
                | Cause::NameRole
        )
    }
}

// A refusal that is about no node.
impl From<Cause> for Refusal {
    ghost from_gives = { λ cause r. r ≡ refusal cause 0 };

    fn from(cause: Cause) -> Refusal {
        cause.at(0)
    }
}

impl fmt::Display for Cause {
    fn fmt<W: fmt::Write>(&self, f: &mut fmt::Formatter<W>) -> fmt::Result {
        match self {
            Cause::NoProgram => f.write_str("no program is loaded"),
            Cause::TableLength => f.write_str(
                "the table is empty, not in eights, or over 4096 bytes",
            ),
            Cause::FieldRule => f.write_str("the kind is unknown, or a field is against its rule"),
            Cause::ChildNotLower => f.write_str("a child's number is not lower than the node's"),
            Cause::ChildSort => f.write_str("a child is of the wrong sort"),
            Cause::NotOneParent => f.write_str("the node is not a child exactly once"),
            Cause::RootNotCommand => f.write_str("the last node is no command"),
            Cause::NameNotVisible => f.write_str("the name is not visible here"),
            Cause::NameRole => f.write_str("the name stands for something else here"),
            Cause::Fuel => f.write_str(
                "the fuel is over 1000000, or brings the take over 1000000000",
            ),
            Cause::TakeEnded => f.write_str("the take has ended"),
            Cause::MemoryShort => f.write_str("the memory is shorter than the sheet"),
            Cause::NotThisHalf => f.write_str("header or nodes are not this program's half sheet"),
            Cause::SheetHeader => f.write_str("header or length are not those of a sheet"),
            Cause::NotTheTranslation => f.write_str("the code is not the translation of the tree"),
            Cause::RampRange => f.write_str("the ramp leaves 32 bits"),
        }
    }
}

// The number, the node at fault where the cause is about a node, and the cause in words.
impl fmt::Display for Refusal {
    fn fmt<W: fmt::Write>(&self, f: &mut fmt::Formatter<W>) -> fmt::Result {
        let Refusal { cause, node } = *self;
        let number = cause.number();
        if cause.is_about_a_node() {
            write!(f, "refused ({number}) at node {node}: {cause}")
        } else {
            write!(f, "refused ({number}): {cause}")
        }
    }
}

impl Error for Refusal {}
