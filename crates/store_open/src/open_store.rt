//! Opening a store, by one thread or by several.

ghost use Rattle.std.specs.Prelude.{◌≡◌, [], false, IfOk, IfErr, ◌≢◌, ◌++◌};
ghost use Rattle.row_map.specs.Database.{IsDatabase};
ghost use Rattle.sector_dev.specs.Disk.{IsHonest, reads_of, after_sync};
ghost use Rattle.sector_dev.specs.Image.{IsFromImage};
ghost use Rattle.sector_dev.specs.Stretch.{Stretch};
ghost use Rattle.store_open.specs.Closing.{synced_by};
ghost use Rattle.store_open.specs.Folded.{store_on};
ghost use Rattle.store_layout.specs.Geometry.{geometry_view};
ghost use Rattle.store_open.specs.NewStore.{DeviceHasRoomFor};
ghost use Rattle.store_open.specs.Open.{OpensAlike, IsOpened, ComesBack, HasNothingToClose, OnlySyncs, IsNoFault, disk_after};
ghost use Rattle.row_map.specs.Row.{row_views};
ghost use Rattle.path_records.specs.declared.error.DbError.TheVariants.{NoMemory};
ghost use Rattle.path_records.specs.RowRecord.{rows_encoding};
ghost use Rattle.path_records.specs.DatabaseReader.{AreReadOn, AreRefused};

use crate::closing::close_unused;
use crate::error::OpenError;
use crate::folded::{Folded, fold_found};
use crate::opening::read_opening;
use crate::store::Store;
use gate_journal::JournalError;
use path_records::{ByCall, DbError, OneThread, RowDecoder, read_in_threads};
use row_map::Row;
use sector_dev::Device;
use std::alloc::Global;
use std::thread::Threads;

/// Opens a device with a store, after any stop: syncs, reads what the image opens with, folds it,
/// closes the gates that read open of the half that is not used, and syncs. Only the parts of the
/// device that count are read, in pieces of at most 16 MiB. A device that is not opened is returned
/// with the error.
pub fn open<D: Device>(alloc: Global, device: D) -> Result<Store<D>, (D, OpenError)>
    ensures opened { IfOk result (λ store. IsHonest (D.disk device) → IsOpened (reads_of (D.disk device)) store) }
    ensures faults { IfOk result (λ store. store.disk.faults ≡ (D.disk device).faults) }
    ensures whole { IfOk result (λ store. store.broken ≡ false) }
    ensures refused { IfErr result (λ back. ComesBack back.1 (D.disk device) (D.disk back.0)) }

    // Nothing is written where no gate has to be closed, nor before a refusal that is not the
    // device's.
    ensures unwritten { IsHonest (D.disk device) → HasNothingToClose (reads_of (D.disk device))
        → OnlySyncs result (D.disk device).history (disk_after D.disk result).history }
    ensures untouched { IfErr result (λ back. IsHonest (D.disk device) → IsNoFault back.1 → (D.disk back.0).history ≡ after_sync (D.disk device).history) }

    // At every moment each image that a stop may leave is an image of the start, or opens with what
    // an image of the start opens with.
    ensures any_moment { Stretch (D.disk device) (disk_after D.disk result) (IsFromImage (D.disk device).history.now OpensAlike) }
{
    open_by(&OneThread, alloc, device)
}

/// Opens a device with a store as `open` does, and reads the rows of the checkpoint in this way.
pub(crate) fn open_by<B: RowDecoder, D: Device>(
    by: &B,
    alloc: Global,
    device: D,
) -> Result<Store<D>, (D, OpenError)>
    requires { B.is_ready by.now }
    ensures opened { IfOk result (λ store. IsHonest (D.disk device) → IsOpened (reads_of (D.disk device)) store) }
    ensures faults { IfOk result (λ store. store.disk.faults ≡ (D.disk device).faults) }
    ensures whole { IfOk result (λ store. store.broken ≡ false) }
    ensures refused { IfErr result (λ back. ComesBack back.1 (D.disk device) (D.disk back.0)) }

    // Nothing is written where no gate has to be closed, nor before a refusal that is not the
    // device's.
    ensures unwritten { IsHonest (D.disk device) → HasNothingToClose (reads_of (D.disk device))
        → OnlySyncs result (D.disk device).history (disk_after D.disk result).history }
    ensures untouched { IfErr result (λ back. IsHonest (D.disk device) → IsNoFault back.1 → (D.disk back.0).history ≡ after_sync (D.disk device).history) }

    // At every moment each image that a stop may leave is an image of the start, or opens with what
    // an image of the start opens with.
    ensures any_moment { Stretch (D.disk device) (disk_after D.disk result) (IsFromImage (D.disk device).history.now OpensAlike) }
{
    let mut device = device;
    let folded = match settle(by, alloc, &mut device) {
        Ok(folded) => folded,
        Err(e) => return Err((device, e)),
    };
    if !folded.is_within() {
        return Err((device, OpenError::Journal(JournalError::PastEnd)));
    }
    Ok(Store {
        alloc,
        device,
        geometry: folded.geometry,
        chosen: folded.half,
        head: folded.head,
        sealed: folded.sealed,
        gate: folded.gate,
        place: folded.place,
        db: folded.db,
        sealed_len: folded.sealed_len,
        broken: false,
    })
}

/// Syncs, so that a stop leaves the bytes that reads return, and brings the device to rest.
fn settle<B: RowDecoder, D: Device>(
    by: &B,
    alloc: Global,
    device: &mut D,
) -> Result<Folded, OpenError>
    requires { B.is_ready by.now }
    ensures opened { IfOk result (λ folded. IsHonest (D.disk device.old) →
        IsOpened (reads_of (D.disk device.old)) (store_on (D.disk device.new) folded)) }
    ensures faults { IfOk result (λ folded. (D.disk device.new).faults ≡ (D.disk device.old).faults) }
    ensures room { IfOk result (λ folded. DeviceHasRoomFor (geometry_view folded.geometry) (D.disk device.new)) }
    ensures whole { IfOk result (λ folded. IsDatabase folded.db) }
    ensures refused { IfErr result (λ e. ComesBack e (D.disk device.old) (D.disk device.new)) }
    ensures unwritten { IsHonest (D.disk device.old) → HasNothingToClose (reads_of (D.disk device.old))
        → OnlySyncs result (D.disk device.old).history (D.disk device.new).history }
    ensures untouched { IfErr result (λ e. IsHonest (D.disk device.old) → IsNoFault e → (D.disk device.new).history ≡ after_sync (D.disk device.old).history) }
    ensures any_moment { Stretch (D.disk device.old) (D.disk device.new) (IsFromImage (D.disk device.old).history.now OpensAlike) }
{
    device.sync()?;
    bring_to_rest(by, alloc, device)
}

/// Reads what a device opens with, folds it, and closes the half that is not used. Nothing may be
/// dirty before the call.
fn bring_to_rest<B: RowDecoder, D: Device>(
    by: &B,
    alloc: Global,
    device: &mut D,
) -> Result<Folded, OpenError>
    requires ready { B.is_ready by.now }
    requires clean { IsHonest (D.disk device.old) → (D.disk device.old).history.now.dirty ≡ [] }
    ensures opened { IfOk result (λ folded. IsHonest (D.disk device.old) →
        IsOpened (reads_of (D.disk device.old)) (store_on (D.disk device.new) folded)) }
    ensures faults { IfOk result (λ folded. (D.disk device.new).faults ≡ (D.disk device.old).faults) }
    ensures room { IfOk result (λ folded. DeviceHasRoomFor (geometry_view folded.geometry) (D.disk device.new)) }
    ensures whole { IfOk result (λ folded. IsDatabase folded.db) }
    ensures refused { IfErr result (λ e. ComesBack e (D.disk device.old) (D.disk device.new)) }
    ensures unwritten { IsHonest (D.disk device.old) → HasNothingToClose (reads_of (D.disk device.old))
        → (D.disk device.new).history ≡ synced_by result (D.disk device.old).history }
    ensures untouched { IfErr result (λ e. IsHonest (D.disk device.old) → IsNoFault e → (D.disk device.new).history ≡ (D.disk device.old).history) }
    ensures any_moment { Stretch (D.disk device.old) (D.disk device.new) (OpensAlike (reads_of (D.disk device.old))) }
{
    let found = read_opening(by, alloc, device)?;
    let folded = fold_found(found)?;
    close_unused(device, folded.geometry, folded.half, folded.sealed)?;
    Ok(folded)
}

/// Opens a device with a store as `open` does, and reads the rows of its checkpoint in up to four
/// threads, the calling one among them. Where no thread can be made, the calling thread reads them.
pub fn open_in_threads<R: Threads + Sync, D: Device>(
    rt: &R,
    alloc: Global,
    device: D,
) -> Result<Store<D>, (D, OpenError)>
    ensures opened { IfOk result (λ store. IsHonest (D.disk device) → IsOpened (reads_of (D.disk device)) store) }
    ensures faults { IfOk result (λ store. store.disk.faults ≡ (D.disk device).faults) }
    ensures whole { IfOk result (λ store. store.broken ≡ false) }
    ensures refused { IfErr result (λ back. ComesBack back.1 (D.disk device) (D.disk back.0)) }

    // Nothing is written where no gate has to be closed, nor before a refusal that is not the
    // device's.
    ensures unwritten { IsHonest (D.disk device) → HasNothingToClose (reads_of (D.disk device))
        → OnlySyncs result (D.disk device).history (disk_after D.disk result).history }
    ensures untouched { IfErr result (λ back. IsHonest (D.disk device) → IsNoFault back.1 → (D.disk back.0).history ≡ after_sync (D.disk device).history) }

    // At every moment each image that a stop may leave is an image of the start, or opens with what
    // an image of the start opens with.
    ensures any_moment { Stretch (D.disk device) (disk_after D.disk result) (IsFromImage (D.disk device).history.now OpensAlike) }
{
    let read = |alloc: Global, rows: Vec<Row>, bytes: &[u8]| -> Result<(Vec<Row>, usize), DbError>
        requires { IsDatabase (row_views rows.items) }
        ensures read { IfOk result (λ read. AreReadOn (row_views rows.items) (row_views read.0.items) bytes.entry.now read.1) }
        ensures refused { IfErr result (λ e. e ≢ NoMemory → AreRefused (rows_encoding (row_views rows.items) ++ bytes.entry.now) e) }
    { read_in_threads(rt, alloc, rows, bytes) };
    open_by(&ByCall { read }, alloc, device)
}
