// What an instrument reports in place of a reading; its code is 1 to 255.
#[derive(Clone, Copy, PartialEq, Eq, Debug)]
pub struct Fault {
    pub code: u8,
}

// What waits in a feed.
#[derive(Clone, Copy, PartialEq, Eq, Debug)]
pub enum Item {
    Reading(i32),
    Fault(Fault),
}
