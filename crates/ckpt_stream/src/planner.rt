//! Planning in one pass over the rows before.

ghost use Rattle.std.specs.Prelude.{◌≡◌, ◌^◌, ◌<◌, ◌∷◌, ◌++◌, [], List, true, false, IfOk, OnOk};
ghost use Rattle.path_db.specs.declared.command.Command.{Command};
ghost use Rattle.row_map.specs.Database.{RowView, row_len};
ghost use Rattle.row_map.specs.Row.{row_view};
ghost use Rattle.ckpt_stream.specs.Planning.{is_beyond};
ghost use Rattle.ckpt_stream.specs.Planner.{HasSeen, IsFresh, PlansOn};
ghost use Rattle.ckpt_stream.specs.Settling.{SettlesSeen, steps_to_settle};

use crate::plan::Edit;
use crate::putting::{push_edit, put_rest, put_up_to};
use crate::settling::Settling;
use crate::touched::{greatest_purge, with_named};
use path_db::{Command, PathDb, Registration, keys_are_separate};
use path_records::Key;
use row_map::{ROW_HEAD, Row};
use seg_check::expiry;
use seg_core::encoded_len;
use std::alloc::{AllocError, Global};

/// Plans how commands change rows, which it sees one after the other in the order of their keys. It
/// keeps the keys that the commands name, an edit for each run of rows, and a database of the rows
/// under those keys, which share their segments. The database has no indexes, as its rows are read
/// by their keys alone.
#[derive(Drop)]
pub struct Planner {
    keys: Vec<Key>,
    at: usize,
    purged: Option<u64>,
    edits: Vec<Edit>,
    kept: u64,
    alloc: Global,
    olds: PathDb,
}

impl Planner {
    /// A planner for no command that has seen no row.
    pub fn new(alloc: Global) -> Planner
        ensures seen { HasSeen [] [] result }
        ensures fresh { IsFresh result }
    {
        let keys = Vec::new(alloc);
        let edits = Vec::new(alloc);
        let olds = PathDb::new(alloc).without_indexes();
        Planner {
            keys,
            at: 0,
            purged: None,
            edits,
            kept: 0,
            alloc,
            olds,
        }
    }

    /// Has a planner that has seen no row plan for further commands, after its own. It takes the id
    /// of each segment that they register. Where memory is refused, the planner cannot be used any
    /// more.
    pub fn name(&mut self, commands: &[Command]) -> Result<(), AllocError>
        ensures seen { OnOk result ((before : List Command)
            → IsFresh self.old → HasSeen before [] self.old → HasSeen (before ++ commands.now) [] self.new) }
        ensures fresh { OnOk result (IsFresh self.old → IsFresh self.new) }
    {
        self.keys = with_named(self.alloc, &self.keys, commands)?;
        self.purged = greatest_purge(self.purged, commands);
        Ok(())
    }

    /// Sees the next row. Where memory is refused, the planner cannot be used any more.
    pub fn see(&mut self, row: Row) -> Result<(), AllocError>
        ensures { OnOk result ((commands : List Command) (seen : List RowView)
            → HasSeen commands seen self.old → HasSeen commands (seen ++ row_view row ∷ []) self.new) }
    {
        let (at, is_touched) = put_up_to(&self.keys, self.at, &row, &mut self.edits)?;
        self.at = at;
        if is_touched {
            self.take_out(row)?;
            return Ok(());
        }
        if is_left_by(self.purged, &row) {
            self.keep(&row)?;
            return Ok(());
        }
        self.leave_out(&row)?;
        Ok(())
    }

    /// Begins to settle what the commands leave, once all rows were seen. The commands are those
    /// for which the planner was made.
    pub fn settle(self, commands: Vec<Command>) -> Result<Settling, AllocError>
        ensures settles { IfOk result (SettlesSeen self commands.items) }
        ensures few { IfOk result (λ settling. steps_to_settle settling < 2 ^ 65) }
    {
        keys_are_separate();
        let (alloc, keys, olds) = (self.alloc, self.keys, self.olds);
        let mut edits = self.edits;
        put_rest(&keys, self.at, &mut edits)?;
        Ok(Settling::of(alloc, keys, edits, self.kept, olds, commands))
    }
}

impl Planner {
    /// Leaves out a row whose key is named, and keeps the row for the commands.
    fn take_out(&mut self, row: Row) -> Result<(), AllocError>
        ensures { OnOk result (PlansOn true (row_view row) self.old self.new) }
    {
        push_edit(&mut self.edits, Edit::Pass(row_size(&row)))?;
        let mut old = Vec::new(self.alloc);
        old.push((row.kind, row.segment))?;
        self.olds.apply(&Command::Register(Registration::new(old)))?;
        Ok(())
    }

    /// Keeps a row of another key that no purge drops.
    fn keep(&mut self, row: &Row) -> Result<(), AllocError>
        requires { is_beyond self.old.purged (row_view row.now) ≡ true }
        ensures { OnOk result (PlansOn false (row_view row.now) self.old self.new) }
    {
        push_edit(&mut self.edits, Edit::Keep(row_size(row)))?;
        self.kept = self.kept.saturating_add(1);
        Ok(())
    }

    /// Leaves out a row of another key that a purge drops.
    fn leave_out(&mut self, row: &Row) -> Result<(), AllocError>
        requires { is_beyond self.old.purged (row_view row.now) ≡ false }
        ensures { OnOk result (PlansOn false (row_view row.now) self.old self.new) }
    {
        push_edit(&mut self.edits, Edit::Pass(row_size(row)))?;
        Ok(())
    }
}

/// The number of bytes of a row's record.
fn row_size(row: &Row) -> u32
    ensures { result ≡ row_len (row_view row.now) }
{
    (ROW_HEAD + encoded_len(&row.segment)) as u32
}

/// Whether a row expires after the moment, where there is one.
fn is_left_by(purged: Option<u64>, row: &Row) -> bool
    ensures { result ≡ is_beyond purged (row_view row.now) }
{
    match purged {
        Some(moment) => moment < expiry(&row.segment),
        None => true,
    }
}
