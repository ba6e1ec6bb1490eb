//! Stores that were opened.

ghost use Rattle.std.specs.Prelude.{◌≡◌};
ghost use Rattle.row_map.specs.Database.{IsDatabase};
ghost use Rattle.store_layout.specs.Geometry.{geometry_view};
ghost use Rattle.store_open.specs.Store.{half_of_tail};
ghost use Rattle.store_open.specs.StoreShape.{IsStoreWhole};

use ckpt_pair::Head;
use path_db::PathDb;
use sector_dev::Device;
use std::alloc::Global;
use std::marker::Model;
use store_layout::{Geometry, Half};

/// A store on a device that was opened. All its rows are in memory.
pub struct Store<D: Device> {
    pub(crate) alloc: Global,
    pub(crate) device: D,
    pub(crate) geometry: Geometry,
    pub(crate) chosen: Half,
    pub(crate) head: Head,
    pub(crate) sealed: bool,
    pub(crate) gate: u64,
    pub(crate) place: u64,
    pub(crate) db: PathDb,
    pub(crate) sealed_len: u64,
    pub(crate) broken: bool,
}

impl<D: Device> Model for Store<D> {
    ghost use Rattle.ckpt_pair.specs.Heads.{head_view};
    ghost use Rattle.store_layout.specs.Geometry.{geometry_view};
    ghost use Rattle.store_open.specs.Store.{StoreView};
    ghost use Rattle.store_open.specs.StoreShape.{IsStoreWhole};

    ghost Value = { StoreView };

    ghost view = { λ s. record {
      disk = D.disk s.device;
      geometry = geometry_view s.geometry;
      chosen = s.chosen;
      head = head_view s.head;
      sealed = s.sealed;
      gate = s.gate;
      place = s.place;
      rows = s.db;
      sealed_len = s.sealed_len;
      broken = s.broken;
    } };

    ghost invariant = { λ s. IsStoreWhole (record {
      disk = D.disk s.device;
      geometry = geometry_view s.geometry;
      chosen = s.chosen;
      head = head_view s.head;
      sealed = s.sealed;
      gate = s.gate;
      place = s.place;
      rows = s.db;
      sealed_len = s.sealed_len;
      broken = s.broken;
    }) };
}

impl<D: Device> Store<D> {
    /// All rows.
    pub fn db(&self) -> &PathDb
        ensures rows { result.now ≡ self.now.rows }
        ensures whole { IsDatabase self.now.rows }
    {
        &self.db
    }

    /// The number of commands that have made these rows.
    pub fn place(&self) -> u64
        ensures { result ≡ self.now.place }
    {
        self.place
    }

    /// The epoch of the half that is chosen.
    pub fn epoch(&self) -> u64
        ensures { result ≡ self.now.head.epoch }
    {
        self.head.epoch
    }

    /// The version of the format of the half that is chosen.
    pub fn version(&self) -> u32
        ensures version { result ≡ self.now.head.version }
        ensures sound { IsStoreWhole self.now }
    {
        self.head.version
    }

    /// The sizes of both halves, in sectors.
    pub fn geometry(&self) -> Geometry
        ensures { geometry_view result ≡ self.now.geometry }
    {
        self.geometry
    }

    /// Whether the chosen half's journal is sealed, so that the half waits for its checkpoint.
    pub fn is_sealed(&self) -> bool
        ensures { result ≡ self.now.sealed }
    {
        self.sealed
    }

    /// The half of the last journal: the chosen one, or the other one after a seal.
    pub fn tail_half(&self) -> Half
        ensures { result ≡ half_of_tail self.now.chosen self.now.sealed }
    {
        if self.sealed {
            return self.chosen.other();
        }
        self.chosen
    }

    /// The gate at which the last journal ends, in sectors from its start.
    pub fn tail_gate(&self) -> u64
        ensures { result ≡ self.now.gate }
    {
        self.gate
    }

    /// The bytes of the chosen half's rows as records, up to the end of its journal. The result is
    /// 2^64 - 1 for a greater count.
    pub fn sealed_len(&self) -> u64
        ensures { result ≡ self.now.sealed_len }
    {
        self.sealed_len
    }

    /// Whether a checkpoint has failed.
    pub fn is_broken(&self) -> bool
        ensures broken { result ≡ self.now.broken }
        ensures sound { IsStoreWhole self.now }
    {
        self.broken
    }

    /// The device.
    pub fn into_device(self) -> D
        ensures { D.disk result ≡ self.disk }
    {
        let (device, _rows) = self.into_parts();
        device
    }

    /// The device, and all rows, which keep no index by their ends: a caller that shows rows takes
    /// copies of `db` with indexes first.
    pub fn into_parts(self) -> (D, PathDb)
        ensures device { D.disk result.0 ≡ self.disk }
        ensures rows { result.1 ≡ self.rows }
        ensures sound { IsStoreWhole self }
    {
        let Store {
            alloc: _alloc,
            device,
            geometry: _geometry,
            chosen: _chosen,
            head: _head,
            sealed: _sealed,
            gate: _gate,
            place: _place,
            db,
            sealed_len: _sealed_len,
            broken: _broken,
        } = self;
        (device, db.without_indexes())
    }
}
