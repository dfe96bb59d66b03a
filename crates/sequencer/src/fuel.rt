// The most fuel of one run.
pub const RUN_FUEL: u32 = 1000000;

// The most fuel of a take: what all its runs are granted together.
pub const TAKE_FUEL: u32 = 1000000000;
