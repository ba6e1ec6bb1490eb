//! What is found on a device when it is opened.

ghost use Rattle.std.specs.Prelude.{◌≡◌, None, Ok, IfOk};
ghost use Rattle.row_map.specs.Database.{IsDatabase};
ghost use Rattle.sector_dev.specs.Disk.{IsHonest, reads_of};
ghost use Rattle.byte_lists.specs.Sectors.{is_open_gate};
ghost use Rattle.store_layout.specs.Layout.{other, gate_of};
ghost use Rattle.store_layout.specs.OpeningReading.{opening_of, by_geometry, by_choice, by_checkpoint, behind_journal, journal_from};
ghost use Rattle.store_layout.specs.Limits.{latest};
ghost use Rattle.ckpt_pair.specs.Reading.{checkpoint_view};
ghost use Rattle.gate_journal.specs.Scanning.{reading_of};
ghost use Rattle.std.specs.Option.{option_map, IfSome};
ghost use Rattle.store_layout.specs.FirstSector.{geometry_in};
ghost use Rattle.store_layout.specs.Geometry.{geometry_view};
ghost use Rattle.store_open.specs.Heads.{choice_by_heads, HasHeads};
ghost use Rattle.store_open.specs.NewStore.{DeviceHasRoomFor};
ghost use Rattle.store_open.specs.Open.{opening_view, with_tail_seen, OpensSo, HasFront, WantsMemoryToOpen};
ghost use Rattle.store_open.specs.PathStores.{store_format};
ghost use Rattle.store_open.specs.Refusals.{LooksFor, OnOkOrNoMemory};

use crate::error::OpenError;
use crate::first_sector::read_geometry;
use crate::heads::{Choice, choose_half};
use crate::rows::read_checkpoint;
use crate::scanning::scan_journal;
use ckpt_pair::{Checkpoint, PairError, tail_half};
use gate_journal::Scan;
use path_records::RowDecoder;
use sector_dev::Device;
use std::alloc::Global;
use store_layout::{Geometry, Half};

/// What is found on a device: the sizes, the half that is chosen, its checkpoint and its journal.
/// Where that journal is sealed, the journal of the other half continues it.
#[derive(Drop)]
pub(crate) struct Found {
    pub(crate) geometry: Geometry,
    pub(crate) half: Half,
    pub(crate) checkpoint: Checkpoint,
    pub(crate) journal: Scan,
    pub(crate) tail: Option<Scan>,
}

/// Reads what a device's image opens with, its rows in this way. Nothing is written.
pub(crate) fn read_opening<B: RowDecoder, D: Device>(
    by: &B,
    alloc: Global,
    device: &mut D,
) -> Result<Found, OpenError>
    requires { B.is_ready by.now }
    ensures looks { LooksFor result (D.disk device.old) (D.disk device.new) }
    ensures opening { IsHonest (D.disk device.old) → OpensSo opening_view result (opening_of store_format latest (reads_of (D.disk device.old))) }
    ensures memory { IsHonest (D.disk device.old) → OnOkOrNoMemory result (WantsMemoryToOpen (reads_of (D.disk device.old))) }
    ensures room { IfOk result (λ found. DeviceHasRoomFor (geometry_view found.geometry) (D.disk device.old)) }
    ensures whole { IfOk result (λ found. IsDatabase found.checkpoint.db) }
{
    let found = read_geometry(device)?;
    read_sized(by, alloc, device, found)
}

/// Reads what an image opens with, given the sizes that were found.
fn read_sized<B: RowDecoder, D: Device>(
    by: &B,
    alloc: Global,
    device: &mut D,
    found: Option<Geometry>,
) -> Result<Found, OpenError>
    requires ready { B.is_ready by.now }
    requires room { IfSome found (λ geometry. DeviceHasRoomFor (geometry_view geometry) (D.disk device.old)) }
    requires sizes { IsHonest (D.disk device.old) → option_map geometry_view found ≡ geometry_in (reads_of (D.disk device.old)) }
    ensures looks { LooksFor result (D.disk device.old) (D.disk device.new) }
    ensures opening { IsHonest (D.disk device.old) → OpensSo opening_view result
        (by_geometry store_format latest (reads_of (D.disk device.old)) (option_map geometry_view found)) }
    ensures memory { IsHonest (D.disk device.old) → OnOkOrNoMemory result (WantsMemoryToOpen (reads_of (D.disk device.old))) }
    ensures room { IfOk result (λ found. DeviceHasRoomFor (geometry_view found.geometry) (D.disk device.old)) }
    ensures whole { IfOk result (λ found. IsDatabase found.checkpoint.db) }
{
    match found {
        Some(geometry) => read_store(by, alloc, device, geometry),
        None => Err(OpenError::NotAStore),
    }
}

/// Reads what the image of a store of these sizes opens with.
fn read_store<B: RowDecoder, D: Device>(
    by: &B,
    alloc: Global,
    device: &mut D,
    geometry: Geometry,
) -> Result<Found, OpenError>
    requires ready { B.is_ready by.now }
    requires room { DeviceHasRoomFor (geometry_view geometry) (D.disk device.old) }
    ensures looks { LooksFor result (D.disk device.old) (D.disk device.new) }
    ensures opening { IsHonest (D.disk device.old) → OpensSo opening_view result (by_choice store_format latest (geometry_view geometry)
        (reads_of (D.disk device.old)) (choice_by_heads (geometry_view geometry) (reads_of (D.disk device.old)))) }
    ensures memory { IsHonest (D.disk device.old) → OnOkOrNoMemory result (HasFront (geometry_view geometry) (reads_of (D.disk device.old))) }
    ensures same { IfOk result (λ found. found.geometry ≡ geometry) }
    ensures whole { IfOk result (λ found. IsDatabase found.checkpoint.db) }
{
    let choice = choose_half(device, geometry)?;
    let checkpoint = read_checkpoint(by, alloc, device, geometry, choice.half)?;
    read_journals(alloc, device, geometry, choice, checkpoint)
}

/// Reads the journals after the checkpoint of the half that is chosen.
fn read_journals<D: Device>(
    alloc: Global,
    device: &mut D,
    geometry: Geometry,
    choice: Choice,
    checkpoint: Checkpoint,
) -> Result<Found, OpenError>
    requires room { DeviceHasRoomFor (geometry_view geometry) (D.disk device.old) }
    requires heads { IsHonest (D.disk device.old) → HasHeads (geometry_view geometry) (reads_of (D.disk device.old)) choice.heads }
    requires whole { IsDatabase checkpoint.db }
    ensures looks { LooksFor result (D.disk device.old) (D.disk device.new) }
    ensures opening { IsHonest (D.disk device.old) → OpensSo opening_view result (by_checkpoint store_format (geometry_view geometry) choice.half
        (reads_of (D.disk device.old)) (Ok (checkpoint_view checkpoint))) }
    ensures same { IfOk result (λ found. found.geometry ≡ geometry) }
    ensures whole { IfOk result (λ found. IsDatabase found.checkpoint.db) }
{
    let head = checkpoint.head;
    let journal = scan_journal(
        alloc,
        device,
        geometry,
        choice.half,
        head.place,
        head.version,
    )?;
    let tail = read_tail(alloc, device, geometry, choice, &checkpoint, &journal)?;
    Ok(Found {
        geometry,
        half: choice.half,
        checkpoint,
        journal,
        tail,
    })
}

/// Reads the journal of the other half that continues the chosen half's; `None` where the chosen
/// half's is not sealed. A second seal is refused.
fn read_tail<D: Device>(
    alloc: Global,
    device: &mut D,
    geometry: Geometry,
    choice: Choice,
    checkpoint: &Checkpoint,
    journal: &Scan,
) -> Result<Option<Scan>, OpenError>
    requires room { DeviceHasRoomFor (geometry_view geometry) (D.disk device.old) }
    requires heads { IsHonest (D.disk device.old) → HasHeads (geometry_view geometry) (reads_of (D.disk device.old)) choice.heads }
    ensures looks { LooksFor result (D.disk device.old) (D.disk device.new) }
    ensures opening { IsHonest (D.disk device.old) → OpensSo
        (with_tail_seen (geometry_view geometry) choice.half (checkpoint_view checkpoint.now) (reading_of journal.now)) result
        (behind_journal journal.now.sealed (is_open_gate (gate_of (geometry_view geometry) (other choice.half) (reads_of (D.disk device.old))))
        (with_tail_seen (geometry_view geometry) choice.half (checkpoint_view checkpoint.now) (reading_of journal.now) None)
        (journal_from store_format (checkpoint_view checkpoint.now) (geometry_view geometry) (other choice.half) (reads_of (D.disk device.old))
        journal.now.place)) }
{
    let half = tail_half(choice.heads, choice.half, journal.sealed)?;
    if !journal.sealed {
        return Ok(None);
    }
    let version = checkpoint.head.version;
    let tail = scan_journal(alloc, device, geometry, half, journal.place, version)?;
    if tail.sealed {
        return Err(OpenError::Pair(PairError::SealedNewer));
    }
    Ok(Some(tail))
}
