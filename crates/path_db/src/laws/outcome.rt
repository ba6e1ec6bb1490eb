//! Laws of outcomes. Each law is the contract of a function that does nothing.

ghost use Rattle.path_db.specs.OutcomeLaws.{EachPutIsCounted, RowsAreCounted};

/// Each segment that is registered inserts a row, updates a row or keeps one, and is counted once.
pub fn each_put_is_counted()
    ensures { EachPutIsCounted }
{}

/// The number of rows before a command and those inserted is the number of rows after it and those
/// dropped.
pub fn rows_are_counted()
    ensures { RowsAreCounted }
{}
