//! The state of a store at work.

use crate::bookkeeping::Turn;
use crate::showcase::Showcase;
use ckpt_stream::{Merge, Preparation};
use group_phases::{Check, Flush};
use path_db::{Command, Outcome, PathDb};
use rising_map::RisingMap;
use sector_dev::Device;
use std::alloc::Global;
use std::marker::Model;
use store_layout::Half;
use store_open::Geometry;

/// A store at work: its device, what it shows, and what is accepted and not committed yet.
pub struct State<D: Device, S: Showcase> {
    /// The allocator of the state's memory.
    pub(crate) alloc: Global,
    /// The device that has the store. Nothing else writes it.
    pub(crate) device: D,
    /// The sizes of each half's checkpoint area and journal, in sectors.
    pub(crate) geometry: Geometry,
    /// The state's own number, which its tickets and its commit values have too. No other state of
    /// the process has it.
    pub(crate) home: u64,
    /// What shows the committed rows.
    pub(crate) show: S,
    /// The number of commands that are committed since the store was made, which is the place of
    /// the first pending command.
    pub(crate) place: u64,
    /// The rows after all accepted commands.
    pub(crate) tip: PathDb,
    /// The commands that are accepted and not committed yet, in the order of their places, at most
    /// 256.
    pub(crate) pending: Vec<Command>,
    /// The outcome of each accepted command whose ticket is not redeemed yet, by the command's
    /// place.
    pub(crate) kept: RisingMap<Outcome>,
    /// The number of the first pending commands that are in flight: 0 while the flusher rests, and
    /// where a seal is in flight.
    pub(crate) taken: usize,
    /// The number of the pending commands after those taken that follow them as the next group. It
    /// counts only in the phases that have a following group.
    pub(crate) following: usize,
    /// The bytes of the one write of what is in flight, in whole sectors: a group with the closed
    /// gate after it, or a seal.
    pub(crate) staged: Vec<u8>,
    /// The bytes of the one write of the following group, with the closed gate after it.
    pub(crate) staged_next: Vec<u8>,
    /// The phase of the flusher.
    pub(crate) flush: Flush,
    /// The flusher's last commit value.
    pub(crate) group: Turn,
    /// The phase of the checkpointer.
    pub(crate) check: Check,
    /// The checkpointer's last commit value.
    pub(crate) plan: Turn,
    /// The half whose journal has the tail, to which the next group or seal is written.
    pub(crate) half: Half,
    /// The tail's gate, in sectors from the start of that journal. What is in flight is written
    /// after it.
    pub(crate) gate: u64,
    /// The epoch of the half that counts: its checkpoint's number.
    pub(crate) epoch: u64,
    /// The format version of the half that counts, which sets the limits of groups and commands.
    pub(crate) version: u32,
    /// The last checkpoint that was begun, as far as it is not written.
    pub(crate) merge: Option<Merge>,
    /// The number of sectors of that checkpoint that are written.
    pub(crate) written: u64,
    /// What is read of the sealed half for the next checkpoint: nothing while no half is sealed.
    pub(crate) preparation: Preparation,
    /// Whether the state has stopped, which is final.
    pub(crate) stopped: bool,
}

impl<D: Device, S: Showcase> Model for State<D, S> {
    ghost use Rattle.store_layout.specs.Geometry.{geometry_view};
    ghost use Rattle.ckpt_stream.specs.Merge.{encoding_if_any};
    ghost use Rattle.ckpt_stream.specs.Preparation.{calls_left};
    ghost use Rattle.group_core.specs.StateView.{StateView};
    ghost use Rattle.group_core.specs.Invariant.{IsState};

    ghost Value = { StateView };

    ghost view = { λ s. record {
      disk = D.disk s.device;
      geometry = geometry_view s.geometry;
      home = s.home;
      value = S.value s.show;
      shown = S.list s.show;
      pending = s.pending.items;
      kept = s.kept;
      taken = s.taken;
      following = s.following;
      flush = s.flush;
      group = s.group;
      check = s.check;
      plan = s.plan;
      half = s.half;
      gate = s.gate;
      epoch = s.epoch;
      version = s.version;
      checkpoint = encoding_if_any s.merge;
      written = s.written;
      unprepared = calls_left s.preparation;
      stopped = s.stopped;
    } };

    ghost invariant = { λ s. IsState (record {
      disk = D.disk s.device;
      geometry = geometry_view s.geometry;
      home = s.home;
      value = S.value s.show;
      shown = S.list s.show;
      pending = s.pending.items;
      kept = s.kept;
      taken = s.taken;
      following = s.following;
      flush = s.flush;
      group = s.group;
      check = s.check;
      plan = s.plan;
      half = s.half;
      gate = s.gate;
      epoch = s.epoch;
      version = s.version;
      checkpoint = encoding_if_any s.merge;
      written = s.written;
      unprepared = calls_left s.preparation;
      stopped = s.stopped;
    }) (record { staged = s.staged.items; staged_next = s.staged_next.items; tip = s.tip; place = s.place; owed = S.owed s.show; merge = s.merge; preparation = s.preparation }) };
}
