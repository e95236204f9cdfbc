//! The statuses that functions answer to C.

/// Done.
pub const DONE: u32 = 0;

/// Out of memory.
pub const MEMORY: u32 = 1;

/// An argument is not lawful, or a place does not hold what the call needs.
pub const WRONG: u32 = 2;

/// There is no such key, column, pair or item.
pub const ABSENT: u32 = 3;

/// The buffer is too short. The count says how many bytes it needs.
pub const SHORT: u32 = 4;

/// The bytes have a fault.
pub const FAULT: u32 = 5;

/// What the call waits for did not happen yet.
pub const EARLY: u32 = 6;

/// The log has no room, or no stamp or number is left.
pub const FULL: u32 = 7;

/// A write or a sync failed.
pub const FAILED: u32 = 8;
