//! Groups and seals as payloads of whole sectors, and how many sectors and bytes they take.

ghost use Rattle.std.specs.Prelude.{◌≡◌, ◌↔◌, ◌≤◌, ◌++◌, [], length, IfOk, IsTrue, OnOk};
ghost use Rattle.std.specs.List.{All};
ghost use Rattle.path_records.specs.CommandRecord.{IsWithinLimits};
ghost use Rattle.store_layout.specs.Group.{records_of, with_header, group_encoding, seal_encoding, JournalHasRoom, record_encoding, payload_sectors as sectors_of_payload};
ghost use Rattle.gate_journal.specs.Commands.{command_format};
ghost use Rattle.gate_journal.specs.Payload.{IsWithinGroupLimits};

use crate::format::{GROUP, HEADER, MOST_RECORD_BYTES, PLACE_AT, PREFIX, SEAL};
use byte_lists::{SECTOR, pad};
use path_db::Command;
use path_records::{command_len, is_within_limits, write_command};
use std::alloc::{AllocError, Global};
use store_layout::MOST_COMMANDS;

/// Whether these commands may be written as one group, whose first command has this place: there
/// are 1 to 32, each within its limits, their records have at most 262,144 bytes, and no place is
/// above 2^64 - 1.
pub fn can_be_group(commands: &[Command], place: u64) -> bool
    ensures { IsTrue result ↔ IsWithinGroupLimits commands.now place }
{
    let count = commands.len();
    1 <= count
        && count <= MOST_COMMANDS
        && place <= u64::MAX - count as u64
        && commands.iter().all(|command| is_within_limits(command))
        && records_len(commands) <= MOST_RECORD_BYTES
}

/// The payload of a group whose first command has this place: a header, each command's record after
/// its length, and zeros up to a whole sector. The list has room for one more sector, the gate that
/// is written after the payload.
pub fn encode_group(alloc: Global, commands: &[Command], place: u64) -> Result<Vec<u8>, AllocError>
    requires { IsWithinGroupLimits commands.now place }
    ensures { IfOk result (λ payload. payload.items ≡ group_encoding command_format place commands.now) }
{
    let size = records_len(commands);
    let mut out = Vec::with_capacity(alloc, HEADER + size + 2 * SECTOR)?;
    put_header(commands.len() as u8, size as u32, place, &mut out)?;
    put_records(commands, &mut out)?;
    pad(&mut out)?;
    Ok(out)
}

/// The payload of a seal at the place reached: a header, and zeros up to a whole sector.
pub fn encode_seal(place: u64) -> [u8; 512]
    ensures { result ≡ seal_encoding place }
{
    let mut sector = [0; SECTOR];
    sector[0] = SEAL;
    sector[PLACE_AT..HEADER].copy_from_slice(&place.to_be_bytes());
    sector
}

/// The number of bytes of the records of commands.
fn records_len(commands: &[Command]) -> usize
    requires most { length commands.now ≤ 32 }
    requires each { All IsWithinLimits commands.now }
    ensures { result ≡ length (records_of command_format commands.now) }
{
    let mut len = 0;
    for command in commands {
        len += record_len(command);
    }
    len
}

/// Appends the header of a group: the kind, the count of commands, two zeros, the length of the
/// records in four bytes and the place in eight, both big-endian.
fn put_header(count: u8, size: u32, place: u64, out: &mut Vec<u8>) -> Result<(), AllocError>
    ensures { OnOk result (out.new.items ≡ out.old.items ++ with_header 1 count size place []) }
{
    out.extend_from_slice(&[GROUP, count, 0, 0])?;
    out.extend_from_slice(&size.to_be_bytes())?;
    out.extend_from_slice(&place.to_be_bytes())
}

/// Appends the records of commands, each after its length in four big-endian bytes.
fn put_records(commands: &[Command], out: &mut Vec<u8>) -> Result<(), AllocError>
    requires { All IsWithinLimits commands.now }
    ensures { OnOk result (out.new.items ≡ out.old.items ++ records_of command_format commands.now) }
{
    for command in commands {
        let size = command_len(command) as u32;
        out.extend_from_slice(&size.to_be_bytes())?;
        write_command(command, out)?;
    }
    Ok(())
}

/// The number of sectors of a payload whose records have this number of bytes: these and the
/// header's 16, rounded up to whole sectors.
pub fn payload_sectors(record_bytes: u64) -> u64
    ensures { result ≡ sectors_of_payload record_bytes }
{
    let sector = SECTOR as u64;
    record_bytes / sector + (record_bytes % sector + HEADER as u64 + sector - 1) / sector
}

/// Whether a journal of `journal` sectors has room, after a gate, for a payload of `payload`
/// sectors and for two more: the next gate, and a seal's payload.
pub fn fits(gate: u64, payload: u64, journal: u64) -> bool
    ensures { IsTrue result ↔ JournalHasRoom gate payload journal }
{
    journal >= 3 && payload <= journal - 3 && gate <= journal - 3 - payload
}

/// The number of bytes of a command's record in a group: four, and the command's own.
pub fn record_len(command: &Command) -> usize
    requires { IsWithinLimits command.now }
    ensures exact { result ≡ length (record_encoding command_format command.now) }
    ensures most { result ≤ 131158 }
{
    PREFIX + command_len(command)
}
