// The limits of a trunk and of what is lent to its operations.

/// How many time slots a PCM system has, each with a place in the table.
pub const SLOTS: usize = 32;

/// The most PCM systems of a trunk.
pub const MOST_SYSTEMS: usize = 16;

/// The fewest words that are lent to an operation: room for all that one tells.
pub const WORDS: usize = 96;

/// The fewest octets that are lent to an operation: room for all that one sends.
pub const OCTETS: usize = 320;
