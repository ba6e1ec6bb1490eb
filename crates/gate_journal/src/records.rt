//! The records of a group.

ghost use Rattle.std.specs.Prelude.{◌≡◌, ◌+◌, ◌*◌, length, drop, IfOk, IfErr, OnOk};
ghost use Rattle.byte_lists.specs.declared.format.TheConstants.{SECTOR};
ghost use Rattle.store_layout.specs.Limits.{limits_of};
ghost use Rattle.store_layout.specs.Group.{payload_sectors};
ghost use Rattle.store_layout.specs.GroupReading.{first_command, commands_in, record_size};
ghost use Rattle.gate_journal.specs.Commands.{command_format};
ghost use Rattle.gate_journal.specs.declared.error.JournalError.TheVariants.{NoMemory};
ghost use Rattle.gate_journal.specs.Reading.{GivesJournal, Appends, found_in_records, payload_reading, FirstWantsMemory, PayloadWantsMemory};

use crate::error::JournalError;
use crate::format::{HEADER, PREFIX};
use crate::header::are_zeros;
use byte_lists::read_u32;
use path_db::Command;
use path_records::read_command;
use std::alloc::Global;
use store_layout::{JournalKind, allows};

/// Reads the records and the padding of a group's payload, by the count and the size of its header,
/// and appends the commands.
pub(crate) fn read_payload(
    alloc: Global,
    count: u8,
    size: u32,
    payload: &[u8],
    version: u32,
    commands: &mut Vec<Command>,
) -> Result<(), JournalError>
    requires { length payload.now ≡ SECTOR * payload_sectors size }
    ensures reading { Appends commands.old.items commands.new.items result (payload_reading (limits_of version) count size payload.now) }
    ensures memory { IfErr result (λ e. e ≡ NoMemory → PayloadWantsMemory (limits_of version) size payload.now) }
{
    let end = HEADER + size as usize;
    if !are_zeros(&payload[end..]) {
        return Err(JournalError::BadRecord);
    }
    read_records(alloc, count, &payload[HEADER..end], version, commands)
}

/// Reads this number of records, which have to be all of the bytes, and appends their commands.
fn read_records(
    alloc: Global,
    count: u8,
    bytes: &[u8],
    version: u32,
    commands: &mut Vec<Command>,
) -> Result<(), JournalError>
    ensures reading { Appends commands.old.items commands.new.items result (found_in_records (commands_in command_format (limits_of version) count bytes.now)) }
    ensures memory { IfErr result (λ e. e ≡ NoMemory → FirstWantsMemory (limits_of version) bytes.now) }
{
    let mut rest = bytes;
    for _ in 0..count {
        let (command, behind) = read_record(alloc, rest, version)?;
        commands.push(command)?;
        rest = behind;
    }
    if !rest.is_empty() {
        return Err(JournalError::BadRecord);
    }
    Ok(())
}

/// The command of the record at the front of bytes, and the bytes after it.
fn read_record(alloc: Global, bytes: &[u8], version: u32) -> Result<(Command, &[u8]), JournalError>
    ensures first { GivesJournal (λ read. read.0) result (found_in_records (first_command command_format (limits_of version) bytes.now)) }
    ensures behind { IfOk result (λ read. read.1.now ≡ drop (4 + record_size bytes.now) bytes.now) }
    ensures some { OnOk result (FirstWantsMemory (limits_of version) bytes.now) }
    ensures memory { IfErr result (λ e. e ≡ NoMemory → FirstWantsMemory (limits_of version) bytes.now) }
{
    if bytes.len() < PREFIX {
        return Err(JournalError::BadRecord);
    }
    let size = read_u32(bytes, 0) as usize;
    if bytes.len() - PREFIX < size {
        return Err(JournalError::BadRecord);
    }
    let removals = allows(version, JournalKind::Removal);
    let command = read_command(alloc, &bytes[PREFIX..PREFIX + size], removals)?;
    Ok((command, &bytes[PREFIX + size..]))
}
