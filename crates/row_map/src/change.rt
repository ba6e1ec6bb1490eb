//! The effect of a put.

/// What a put did to the rows.
#[derive(Clone, Copy)]
pub enum Change {
    /// No row was under the key.
    Inserted,
    /// The segment is newer than the one under its key, and replaced it.
    Updated,
    /// The segment is not newer than the one under its key, which was kept.
    Kept,
}
