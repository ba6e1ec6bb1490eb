//! Reading the journal of a sealed half in pieces.

ghost use Rattle.std.specs.Prelude.{◌≡◌, ◌≤◌, ◌-◌, ℕ, IfOk, Ok};
ghost use Rattle.sector_dev.specs.Disk.{IsHonest, reads_of};
ghost use Rattle.store_layout.specs.Limits.{limits_of};
ghost use Rattle.store_layout.specs.Layout.{IsGeometry, image_sectors, journal_of};
ghost use Rattle.store_layout.specs.Geometry.{geometry_view};
ghost use Rattle.gate_journal.specs.Scanning.{IsReadUpTo};
ghost use Rattle.store_open.specs.Refusals.{LooksFor};
ghost use Rattle.store_open.specs.Sealed.{LooksAtHalf};
ghost use Rattle.ckpt_stream.specs.declared.half_read.HalfRead.TheVariants.{Journal};
ghost use Rattle.ckpt_stream.specs.OldJournal.{HasFewerPieces, ScansOn};
ghost use Rattle.ckpt_stream.specs.HalfRead.{IsHalfRead, IsWithin, pieces_to_come, ReadsOn};

use crate::half_read::HalfRead;
use crate::old_rows::{READ_SECTORS, start_rows};
use ckpt_pair::Front;
use gate_journal::{Progress, Scanner};
use sector_dev::Device;
use std::alloc::Global;
use store_layout::{Geometry, Half};
use store_open::{OpenError, SealedError, read_piece};

/// The journal of a sealed half, read up to a gate.
#[derive(Drop)]
pub(crate) struct JournalRead {
    /// The front of the half's area.
    pub(crate) front: Front,
    /// The number of sectors of the journal.
    pub(crate) sectors: u32,
    /// The journal up to the gate.
    pub(crate) scanner: Scanner,
}

/// Reads on in the journal of a half: until 64 sectors are read, or to the end of what a scanner
/// wants then. Where the journal ends, its rows are to be read next.
pub(crate) fn scan_on<D: Device>(
    alloc: Global,
    device: &mut D,
    geometry: Geometry,
    half: Half,
    journal: JournalRead,
) -> Result<HalfRead, SealedError>
    requires allowed { IsGeometry (geometry_view geometry) }
    requires room { image_sectors (geometry_view geometry) ≤ (D.disk device.old).sectors }
    requires whole { IsHalfRead (Journal journal) }
    requires within { IsWithin (geometry_view geometry) (Journal journal) }
    ensures looks { LooksAtHalf result (D.disk device.old) (D.disk device.new) }
    ensures whole { IfOk result IsHalfRead }
    ensures within { IfOk result (IsWithin (geometry_view geometry)) }
    ensures nearer { IfOk result (λ next. pieces_to_come next ≤ pieces_to_come (Journal journal) - 1) }
    ensures reads { IsHonest (D.disk device.old) → ReadsOn (geometry_view geometry) half (reads_of (D.disk device.old)) (Journal journal) result }
{
    let (front, sectors) = (journal.front, journal.sectors);
    match scan_pieces(alloc, device, geometry, half, journal.scanner)? {
        Progress::More(scanner) => Ok(HalfRead::Journal(JournalRead {
            front,
            sectors,
            scanner,
        })),
        Progress::Done(scan) => {
            if !scan.sealed {
                return Err(SealedError::Damaged);
            }
            Ok(HalfRead::Rows(start_rows(alloc, front, scan)))
        }
    }
}

/// Takes pieces of a journal until 64 sectors are read, or the journal ends.
fn scan_pieces<D: Device>(
    alloc: Global,
    device: &mut D,
    geometry: Geometry,
    half: Half,
    scanner: Scanner,
) -> Result<Progress, OpenError>
    requires allowed { IsGeometry (geometry_view geometry) }
    requires room { image_sectors (geometry_view geometry) ≤ (D.disk device.old).sectors }
    requires sectors { scanner.sectors ≡ geometry.journal }
    ensures looks { LooksFor result (D.disk device.old) (D.disk device.new) }
    ensures fewer { IfOk result (HasFewerPieces scanner) }
    ensures scan { IsHonest (D.disk device.old) → (place : ℕ)
        → IsReadUpTo scanner (journal_of (geometry_view geometry) half (reads_of (D.disk device.old))) place
        → ScansOn (limits_of scanner.version) (journal_of (geometry_view geometry) half (reads_of (D.disk device.old))) place result }
{
    let start = geometry.journal_at(half);
    let mut scanner = scanner;
    let mut count = 0;
    'pieces: loop {
        let wanted = scanner.wanted();
        let piece = read_piece(alloc, device, start + wanted.first, wanted.count)?;
        match scanner.take(alloc, &piece)? {
            Progress::Done(scan) => return Ok(Progress::Done(scan)),
            Progress::More(next) => {
                count += wanted.count;
                if count >= READ_SECTORS {
                    return Ok(Progress::More(next));
                }
                scanner = next;
            }
        }
    }
}
