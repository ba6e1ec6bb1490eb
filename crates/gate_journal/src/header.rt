//! The first sector of a payload.

ghost use Rattle.std.specs.Prelude.{◌≡◌, ◌≢◌, length, IfErr};
ghost use Rattle.byte_lists.specs.declared.format.TheConstants.{SECTOR};
ghost use Rattle.store_layout.specs.Limits.{limits_of};
ghost use Rattle.store_layout.specs.GroupReading.{is_group_header as group_header, is_seal_header as seal_header, is_header as header_of, are_zeros as all_zeros};
ghost use Rattle.gate_journal.specs.declared.error.JournalError.TheVariants.{NoMemory};
ghost use Rattle.gate_journal.specs.Reading.{header_reading, GivesJournal};

use crate::encoding::{fits, payload_sectors};
use crate::error::JournalError;
use crate::format::{COUNT_AT, GROUP, HEADER, MOST_RECORD_BYTES, PLACE_AT, SEAL, SIZE_AT};
use byte_lists::{read_u32, read_u64};
use store_layout::most_commands;

/// The header of a payload: that of a group of this number of commands, whose records have this
/// number of bytes, or that of a seal.
#[derive(Clone, Copy)]
pub(crate) enum Header {
    Group(u8, u32),
    Seal,
}

/// Reads the first sector of the payload after a gate, where this place is expected and the journal
/// has this number of sectors.
pub(crate) fn read_header(
    sector: &[u8],
    version: u32,
    gate: u64,
    place: u64,
    sectors: u64,
) -> Result<Header, JournalError>
    requires { length sector.now ≡ SECTOR }
    ensures reading { GivesJournal (λ header. header) result (header_reading (limits_of version) sector.now gate place sectors) }
    ensures memory { IfErr result (λ e. e ≢ NoMemory) }
{
    let size = read_u32(sector, SIZE_AT);
    if is_group_header(sector, version) {
        if read_u64(sector, PLACE_AT) != place {
            return Err(JournalError::Gap(place));
        }
        if !fits(gate, payload_sectors(u64::from(size)), sectors) {
            return Err(JournalError::PastEnd);
        }
        return Ok(Header::Group(sector[COUNT_AT], size));
    }
    if !is_seal_header(sector) {
        return Err(JournalError::BadHeader);
    }
    if read_u64(sector, PLACE_AT) != place {
        return Err(JournalError::Gap(place));
    }
    if !are_zeros(&sector[HEADER..]) {
        return Err(JournalError::BadRecord);
    }
    Ok(Header::Seal)
}

/// Whether a payload begins with the header of a group.
fn is_group_header(sector: &[u8], version: u32) -> bool
    requires { length sector.now ≡ SECTOR }
    ensures { result ≡ group_header (limits_of version) sector.now }
{
    is_header(
        sector,
        GROUP,
        1,
        most_commands(version) as u8,
        MOST_RECORD_BYTES as u32,
    )
}

/// Whether a payload begins with the header of a seal.
fn is_seal_header(sector: &[u8]) -> bool
    requires { length sector.now ≡ SECTOR }
    ensures { result ≡ seal_header sector.now }
{
    is_header(sector, SEAL, 0, 0, 0)
}

/// Whether a payload begins with a header of this kind, with `few` to `many` commands, and with
/// records of at most `longest` bytes.
fn is_header(sector: &[u8], kind: u8, few: u8, many: u8, longest: u32) -> bool
    requires { length sector.now ≡ SECTOR }
    ensures { result ≡ header_of kind few many longest sector.now }
{
    let count = sector[COUNT_AT];
    sector[0] == kind
        && few <= count
        && count <= many
        && sector[2] == 0
        && sector[3] == 0
        && read_u32(sector, SIZE_AT) <= longest
        && read_u64(sector, PLACE_AT) <= u64::MAX - u64::from(count)
}

/// Whether all bytes are zero.
pub(crate) fn are_zeros(bytes: &[u8]) -> bool
    ensures { result ≡ all_zeros bytes.now }
{
    bytes.iter().all(|byte| *byte == 0)
}
