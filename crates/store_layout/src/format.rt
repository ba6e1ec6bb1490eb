//! The limits of a store's sizes, and the length of a checkpoint before its rows.

/// The fewest sectors of a checkpoint area.
pub const LEAST_CHECKPOINT: u32 = 2;
/// The fewest sectors of a journal: enough for the largest group and a seal, with their gates.
pub const LEAST_JOURNAL: u32 = 516;
/// The most sectors of a checkpoint area, and of a journal.
pub const MOST_SECTORS: u32 = 1_048_576;
/// The length of a checkpoint before its rows, in bytes: the head (24), the length of the rows'
/// records (4), and their number (4).
pub const BEFORE_ROWS: usize = 32;
