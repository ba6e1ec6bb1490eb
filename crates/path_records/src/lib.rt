//! The records of a path segment server's database: rows and commands as bytes.
//!
//! To the layer above: the calls that write rows and commands of `path_db` as records, and read
//! these. What was written is read back unchanged, bytes that are read are the record of the
//! result, and each refusal is exactly that of the definitions.
#![tactic(auto)]

mod command_records;
mod command_sizes;
mod database_reader;
mod error;
mod format;
mod in_threads;
mod key;
mod laws;
mod one_key;
mod row_cursor;
mod row_decoder;
mod row_records;

pub use command_records::{read_command, write_command};
pub use command_sizes::{command_len, is_within_limits};
pub use database_reader::DatabaseReader;
pub use error::DbError;
pub use format::PIECE;
pub use in_threads::read_in_threads;
pub use key::Key;
pub use laws::record::{
    command_refusals_are_exact, commands_are_read_on, read_commands_are_spelled,
    read_commands_can_be_written, read_rows_are_spelled, row_refusals_are_exact,
    written_commands_are_read, written_rows_are_counted, written_rows_are_read,
};
pub use one_key::row_after;
pub use row_cursor::RowCursor;
pub use row_decoder::{ByCall, OneThread, RowDecoder};
pub use row_records::{read_rows, row_head, write_rows};
