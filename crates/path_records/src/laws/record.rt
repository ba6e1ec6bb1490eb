//! Laws of commands and rows as records. Each law is the contract of a function that does nothing.

ghost use Rattle.path_records.specs.RecordLaws.{ReadCommandsAreSpelled, CommandsAreReadOn, WrittenCommandsAreRead, ReadCommandsCanBeWritten, WrittenRowsAreRead, WrittenRowsAreCounted, ReadRowsAreSpelled};
ghost use Rattle.path_records.specs.RecordRefusals.{BadRecordIsExact, OrderIsExact, RowsWantNoMemory, CommandRefusalIsExact, CommandsHaveOneRefusal};

/// The bytes that are read as a command are its record.
pub fn read_commands_are_spelled()
    ensures { ReadCommandsAreSpelled }
{}

/// Bytes that are read as a command without removals are read as the same command where removals
/// are allowed.
pub fn commands_are_read_on()
    ensures { CommandsAreReadOn }
{}

/// The record of a command within its limits, whose segments are whole, is read as that command.
/// The record of a removal is read where removals are allowed.
pub fn written_commands_are_read()
    ensures { WrittenCommandsAreRead }
{}

/// A command that is read can be written: it is within the limits, its segments are whole, its
/// numbers fit their fields, and it is a removal only where removals are allowed.
pub fn read_commands_can_be_written()
    ensures { ReadCommandsCanBeWritten }
{}

/// The records of a database are read as its rows.
pub fn written_rows_are_read()
    ensures { WrittenRowsAreRead }
{}

/// The records of rows have as many bytes as `PathDb::encoded_len` counts.
pub fn written_rows_are_counted()
    ensures { WrittenRowsAreCounted }
{}

/// The bytes that are read as rows are their records, and the rows are a database.
pub fn read_rows_are_spelled()
    ensures { ReadRowsAreSpelled }
{}

/// Bytes are refused as rows exactly where, after the records of a database, there are bytes that
/// begin with no row's record (`BadRecord`), or the record of a row whose key is not above the last
/// one's (`Order`). They are never refused with `NoMemory`.
pub fn row_refusals_are_exact()
    ensures bad { BadRecordIsExact }
    ensures order { OrderIsExact }
    ensures memory { RowsWantNoMemory }
{}

/// Bytes are refused as a command exactly where they are the record of no command that can be
/// written, and with this one error.
pub fn command_refusals_are_exact()
    ensures exact { CommandRefusalIsExact }
    ensures only { CommandsHaveOneRefusal }
{}
