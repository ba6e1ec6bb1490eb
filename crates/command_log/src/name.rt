//! Which log it is.

use std::marker::Brand;

/// Names one log by the table of its passes. The call that makes a log picks the name, so no two
/// logs have one name, and a claim of one log is refused by the types of another.
pub trait LogName {
    ghost use Rattle.atomic_table.specs.Seated.{TableId};

    /// The log's table.
    ghost table: { TableId };
}

impl LogName for Brand {
    ghost use Rattle.command_log.specs.Passes.{no_log};

    ghost table = { no_log };
}
