//! Reading sectors and a journal from a device.

ghost use Rattle.std.specs.Prelude.{◌≡◌, ◌⊎◌, ◌+◌, ◌*◌, ◌%◌, ◌≤◌, length, IfOk, IfErr, OnOk, ◌<◌};
ghost use Rattle.byte_lists.specs.Content.{part};
ghost use Rattle.byte_lists.specs.declared.format.TheConstants.{SECTOR};
ghost use Rattle.sector_dev.specs.Disk.{IsHonest, reads_of};
ghost use Rattle.store_layout.specs.Limits.{limits_of};
ghost use Rattle.store_layout.specs.JournalReading.{journal_scan};
ghost use Rattle.store_layout.specs.Layout.{IsGeometry, image_sectors, journal_of};
ghost use Rattle.gate_journal.specs.Commands.{command_format};
ghost use Rattle.store_open.specs.declared.error.OpenError.TheVariants.{Device as IsDevice, NoMemory};
ghost use Rattle.store_layout.specs.Geometry.{geometry_view};
ghost use Rattle.store_open.specs.Refusals.{LooksFor, ScansSo};
ghost use Rattle.byte_lists.specs.Sectors.{sector_at};
ghost use Rattle.store_open.specs.Looking.{LooksAt};

use crate::error::OpenError;
use gate_journal::{Progress, Scan, Scanner};
use sector_dev::{DevError, Device, SECTOR};
use std::alloc::Global;
use store_layout::{Geometry, Half};

/// Scans a half's journal by the version of its store. The first command must have this place. No
/// more of the journal is read than what counts, a gate or a payload at a time.
pub fn scan_journal<D: Device>(
    alloc: Global,
    device: &mut D,
    geometry: Geometry,
    half: Half,
    place: u64,
    version: u32,
) -> Result<Scan, OpenError>
    requires allowed { IsGeometry (geometry_view geometry) }
    requires room { image_sectors (geometry_view geometry) ≤ (D.disk device.old).sectors }
    ensures looks { LooksFor result (D.disk device.old) (D.disk device.new) }
    ensures scan { IsHonest (D.disk device.old) → ScansSo result
        (journal_scan command_format (limits_of version) (journal_of (geometry_view geometry) half (reads_of (D.disk device.old))) place) }
{
    let start = geometry.journal_at(half);
    let mut scanner = Scanner::new(alloc, u64::from(geometry.journal), place, version);
    'pieces: loop {
        let wanted = scanner.wanted();
        let piece = read_piece(alloc, device, start + wanted.first, wanted.count)?;
        match scanner.take(alloc, &piece)? {
            Progress::Done(scan) => return Ok(scan),
            Progress::More(next) => scanner = next,
        }
    }
}

/// Reads this number of sectors, of 512 bytes each, which the device has from the sector `at` on.
/// An error is `Device` or `NoMemory`.
pub fn read_piece<D: Device>(
    alloc: Global,
    device: &mut D,
    at: u64,
    count: u64,
) -> Result<Vec<u8>, OpenError>
    requires { at + count ≤ (D.disk device.old).sectors }
    ensures looks { LooksFor result (D.disk device.old) (D.disk device.new) }
    ensures size { IfOk result (λ bytes. length bytes.items ≡ SECTOR * count) }
    ensures read { IfOk result (λ bytes. IsHonest (D.disk device.old) → bytes.items ≡ part (SECTOR * at) (SECTOR * count) (reads_of (D.disk device.old))) }
    ensures refused { IfErr result (λ e. (e ≡ IsDevice) ⊎ (e ≡ NoMemory)) }
{
    let mut bytes = vec![in alloc; 0; SECTOR * count as usize]?;
    fill(device, at, &mut bytes)?;
    Ok(bytes)
}

/// Reads whole sectors, which the device has from the sector `at` on, in place of the bytes of a
/// piece. An error is `Device`, and then the piece may have any bytes.
pub(crate) fn fill<D: Device>(device: &mut D, at: u64, piece: &mut [u8]) -> Result<(), OpenError>
    requires whole { length piece.old % SECTOR ≡ 0 }
    requires inside { SECTOR * at + length piece.old ≤ SECTOR * (D.disk device.old).sectors }
    ensures looks { LooksFor result (D.disk device.old) (D.disk device.new) }
    ensures read { OnOk result (IsHonest (D.disk device.old) → piece.new ≡ part (SECTOR * at) (length piece.old) (reads_of (D.disk device.old))) }
    ensures refused { IfErr result (λ e. e ≡ IsDevice) }
{
    device.read(at, piece)?;
    Ok(())
}

/// Reads a sector, which the device has.
pub fn read_sector<D: Device>(device: &mut D, at: u64) -> Result<[u8; 512], DevError>
    requires { at < (D.disk device.old).sectors }
    ensures looks { LooksAt result (D.disk device.old) (D.disk device.new) }
    ensures read { IfOk result (λ sector. IsHonest (D.disk device.old) → sector ≡ sector_at at (reads_of (D.disk device.old))) }
{
    let mut sector = [0; SECTOR];
    device.read(at, &mut sector)?;
    Ok(sector)
}
