// What a name stands for. Constants, variables and parameters stand for values.
#[derive(Clone, Copy, PartialEq, Eq, Debug)]
pub enum Role {
    Value,
    Procedure,
    Function,
}

// A visible name.
#[derive(Clone, Copy, PartialEq, Eq, Debug)]
pub struct Entry {
    pub name: u8,
    pub role: Role,
}

// Where the newest entry of a name stands: how many entries are newer, and what it stands for.
#[derive(Clone, Copy, PartialEq, Eq, Debug)]
pub struct Place {
    pub newer: u16,
    pub role: Role,
}
