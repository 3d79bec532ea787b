//! The exit statuses of the program.

/// The status of a job that is done, or if help was asked for.
pub const DONE: u8 = 0;

/// The status if the input is refused.
pub const REFUSED: u8 = 1;

/// The status if the command line is refused.
pub const WORDS: u8 = 2;

/// The status if a read or a write failed.
pub const OUTSIDE: u8 = 3;

/// The status if memory ran out.
pub const MEMORY: u8 = 4;

/// The status if sources are different.
pub const DIFFERENT: u8 = 5;
