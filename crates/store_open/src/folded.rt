//! The state of a store whose commands are folded, and reading it from a device.

ghost use Rattle.std.specs.Prelude.{◌↔◌, IfOk, IsTrue, ◌≡◌, OnOk, IfErr};
ghost use Rattle.row_map.specs.Database.{IsDatabase};
ghost use Rattle.store_open.specs.Folded.{TellsOnAny, IsSeenOn};
ghost use Rattle.store_open.specs.Open.{opening_view, ComesBack, WantsMemoryToOpen};
ghost use Rattle.store_open.specs.StoreShape.{IsSealWithin};
ghost use Rattle.store_layout.specs.StoreFormat.{db_after};
ghost use Rattle.store_open.specs.PathStores.{store_format};
ghost use Rattle.sector_dev.specs.Calls.{Keeps};
ghost use Rattle.sector_dev.specs.Disk.{IsHonest, reads_of};
ghost use Rattle.store_open.specs.Refusals.{OnOkOrNoMemory};

use crate::error::OpenError;
use crate::opening::{Found, read_opening};
use ckpt_pair::{Checkpoint, Head};
use path_db::{Command, PathDb};
use path_records::OneThread;
use sector_dev::Device;
use std::alloc::{AllocError, Global};
use store_layout::{Geometry, Half, LATEST};

/// A store without its device: the sizes, the half that is chosen and its head, whether its journal
/// is sealed, the gate at which the last journal ends, the place reached, all rows, and the bytes
/// of the rows of the chosen half.
#[derive(Drop)]
pub struct Folded {
    pub geometry: Geometry,
    pub half: Half,
    pub head: Head,
    pub sealed: bool,
    pub gate: u64,
    pub place: u64,
    pub db: PathDb,
    pub sealed_len: u64,
}

impl Folded {
    /// Whether the last journal has room for a seal after its last gate, and the version is one
    /// that is known.
    pub(crate) fn is_within(&self) -> bool
        ensures { IsTrue result ↔ IsSealWithin self.now.geometry.journal self.now.gate self.now.head.version }
    {
        let journal = u64::from(self.geometry.journal);
        journal >= 2 && self.gate <= journal - 2 && self.head.version <= LATEST
    }
}

/// Folds the commands of the journal, and then those of the tail, into the rows of the checkpoint.
pub(crate) fn fold_found(found: Found) -> Result<Folded, AllocError>
    requires { IsDatabase found.checkpoint.db }
    ensures tells { IfOk result (λ folded. TellsOnAny folded (opening_view found)) }
    ensures whole { IfOk result (λ folded. IsDatabase folded.db) }
{
    let Checkpoint { head, db } = found.checkpoint;
    let mut db = db;
    fold(&mut db, &found.journal.commands)?;
    let sealed_len = db.encoded_len();
    let (gate, place) = match &found.tail {
        None => (found.journal.tail, found.journal.place),
        Some(behind) => {
            fold(&mut db, &behind.commands)?;
            (behind.tail, behind.place)
        }
    };
    Ok(Folded {
        geometry: found.geometry,
        half: found.half,
        head,
        sealed: found.journal.sealed,
        gate,
        place,
        db,
        sealed_len,
    })
}

/// Applies commands one after the other. Where memory is refused, some of them may be applied.
pub(crate) fn fold(db: &mut PathDb, commands: &[Command]) -> Result<(), AllocError>
    requires { IsDatabase db.old }
    ensures folded { OnOk result (db.new ≡ db_after store_format db.old commands.now) }
    ensures whole { IsDatabase db.new }
{
    for command in commands {
        db.apply(command)?;
    }
    Ok(())
}

/// What a device opens with, of which `open` would make a store, in the order of its refusals. The
/// device is only read, so that it is unchanged, and one that cannot be written is enough. No more
/// of it is read than counts, in pieces of at most 16 MiB.
pub fn look<D: Device>(alloc: Global, device: &mut D) -> Result<Folded, OpenError>
    ensures seen { IfOk result (IsSeenOn (D.disk device.old)) }
    ensures whole { IfOk result (λ folded. IsDatabase folded.db) }
    ensures faults { IfOk result (λ _. (D.disk device.new).faults ≡ (D.disk device.old).faults) }
    ensures refused { IfErr result (λ e. ComesBack e (D.disk device.old) (D.disk device.new)) }
    ensures memory { IsHonest (D.disk device.old) → OnOkOrNoMemory result (WantsMemoryToOpen (reads_of (D.disk device.old))) }
    ensures keeps { Keeps (D.disk device.old) (D.disk device.new) }
    ensures history { IsHonest (D.disk device.old) → (D.disk device.new).history ≡ (D.disk device.old).history }
{
    let found = read_opening(&OneThread, alloc, device)?;
    let folded = fold_found(found)?;
    Ok(folded)
}
