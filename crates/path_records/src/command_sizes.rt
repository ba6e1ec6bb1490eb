//! The number of bytes of commands' records, and the limits of commands.

ghost use Rattle.std.specs.Prelude.{◌≡◌, ◌↔◌, ◌+◌, ◌*◌, ◌≤◌, true, length, IsTrue};
ghost use Rattle.path_db.specs.declared.command.Command.TheVariants.{Register};
ghost use Rattle.row_map.specs.Database.{AreWhole};
ghost use Rattle.path_records.specs.CommandRecord.{IsWithinLimits, segments_len, command_encoding};
ghost use Rattle.path_records.specs.RecordLaws.{HasCommandRecord};

use crate::format::{COMMAND_HEAD, PURGE_RECORD};
use path_db::Command;
use row_map::ROW_HEAD;
use seg_core::{MOST_REGISTERED, MOST_REGISTERED_BYTES, SegType, Segment, encoded_len};

/// The number of bytes of a command's record.
#[tactic(auto, using(crate::proofs::ReadBack::encoding_len), unfolding(crate::specs::CommandRecord::command_encoding))]
pub fn command_len(command: &Command) -> usize
    requires { IsWithinLimits command.now }
    ensures exact { result ≡ length (command_encoding command.now) }
    ensures most { result ≤ 131154 }
{
    match command {
        Command::Register(registration) => COMMAND_HEAD + rows_len(registration.as_slice()),
        Command::Purge(_) => PURGE_RECORD,
        Command::Remove(_, id) => COMMAND_HEAD + id_len(id),
    }
}

/// The number of bytes of an id.
fn id_len(id: &[u8; 32]) -> usize
    ensures exact { result ≡ length id.now }
    ensures all { result ≡ 32 }
{
    id.len()
}

/// The number of bytes of the records of rows.
fn rows_len(rows: &[(SegType, Segment)]) -> usize
    requires { length rows.now ≤ MOST_REGISTERED }
    ensures exact { result ≡ segments_len rows.now + 5 * length rows.now }
    ensures whole { AreWhole rows.now }
{
    let mut len = 0;
    for (_, segment) in rows {
        len += ROW_HEAD + encoded_len(segment);
    }
    len
}

/// Whether a command is within its limits: at most 16 segments, which have at most 131,072 bytes
/// together. Such a command has a record, which is read as the command.
pub fn is_within_limits(command: &Command) -> bool
    ensures exact { IsTrue result ↔ IsWithinLimits command.now }
    ensures written { IsTrue result → HasCommandRecord true command.now }
{
    match command {
        Command::Register(registration) => are_within_limits(registration.as_slice()),
        Command::Purge(moment) => {
            let _moment = *moment;
            true
        }
        Command::Remove(_, id) => id_len(id) == 32,
    }
}

/// Whether segments may be registered by one command.
fn are_within_limits(rows: &[(SegType, Segment)]) -> bool
    ensures exact { IsTrue result ↔ IsWithinLimits (Register rows.now) }
    ensures whole { IsTrue result → AreWhole rows.now }
{
    rows.len() <= MOST_REGISTERED && rows_len(rows) - ROW_HEAD * rows.len() <= MOST_REGISTERED_BYTES
}
