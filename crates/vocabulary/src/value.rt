use std::fmt;

// A plain value: what a cell or a strip holds.
#[derive(Clone, Copy, PartialEq, Eq, Debug)]
pub enum Plain {
    Number(i32),
    Truth(bool),
}

// What an expression has: a plain value, or the location of a cell.
#[derive(Clone, Copy, PartialEq, Eq, Debug)]
pub enum Value {
    Plain(Plain),
    Location(u16),
}

impl fmt::Display for Plain {
    fn fmt<W: fmt::Write>(&self, f: &mut fmt::Formatter<W>) -> fmt::Result {
        match self {
            Plain::Number(number) => write!(f, "{number}"),
            Plain::Truth(truth) => write!(f, "{truth}"),
        }
    }
}
