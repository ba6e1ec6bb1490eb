//! Settling what commands leave under keys, in pieces.

ghost use Rattle.std.specs.Prelude.{◌≡◌, ◌<◌, ◌≤◌, ◌^◌, List, [], length, IfOk, OnOk};
ghost use Rattle.path_db.specs.declared.command.Command.{Command};
ghost use Rattle.row_map.specs.Database.{RowView, row_under};
ghost use Rattle.ckpt_stream.specs.Planner.{IsPlanOf};
ghost use Rattle.ckpt_stream.specs.Settling.{Settles, SettlesOn, HasFewerSteps, steps_to_settle};
ghost use Rattle.path_db.specs.Command.{HasWholeSegments};
ghost use Rattle.std.specs.Option.{option_map};
ghost use Rattle.row_map.specs.Row.{row_view};
ghost use Rattle.path_records.specs.Key.{key_bytes};

use crate::laws::merges_are_folds;
use crate::plan::{Edit, Plan, kept_bytes, one_if_any, record_len};
use path_db::{Command, PathDb, commands_keep_database};
use path_records::Key;
use row_map::Row;
use seg_core::encoded_len;
use std::alloc::{AllocError, Global};
use std::mem::replace;

/// The most work of a piece: a command is one, and one more for each row that it registers.
const WORK: usize = 256;

/// The keys of a piece.
const KEYS: usize = 256;

/// What commands leave under the keys that they name, found in pieces: first the commands are
/// applied to the rows under those keys, and then the rows that are left are listed. A command is
/// dropped as it is applied, and a row leaves the database as it is listed, so that no piece drops
/// much at a time.
#[derive(Drop)]
pub struct Settling {
    keys: Vec<Key>,
    edits: Vec<Edit>,
    kept: u64,
    db: PathDb,
    commands: Vec<Command>,
    at: usize,
    rows: Vec<Option<Row>>,
    size: u64,
    count: u64,
}

/// How far what commands leave is settled.
#[derive(Drop)]
pub enum Settled {
    /// A piece of it.
    More(Settling),
    /// All of it: the plan.
    Done(Plan),
}

impl Settling {
    /// Nothing is settled yet.
    pub(crate) fn of(
        alloc: Global,
        keys: Vec<Key>,
        edits: Vec<Edit>,
        kept: u64,
        db: PathDb,
        commands: Vec<Command>,
    ) -> Settling
        ensures keys { result.keys.items ≡ keys.items }
        ensures edits { result.edits.items ≡ edits.items }
        ensures kept { result.kept ≡ kept }
        ensures db { result.db ≡ db }
        ensures commands { result.commands.items ≡ commands.items }
        ensures at { result.at ≡ 0 }
        ensures rows { result.rows.items ≡ [] }
        ensures size { result.size ≡ 0 }
        ensures count { result.count ≡ 0 }
        ensures few { steps_to_settle result < 2 ^ 65 }
    {
        Settling {
            keys,
            edits,
            kept,
            db,
            commands,
            at: 0,
            rows: Vec::new(alloc),
            size: 0,
            count: 0,
        }
    }

    /// Settles the next piece: it applies commands of about 256 rows, or lists the rows under 256
    /// keys. Where memory is refused, nothing is left.
    pub fn settle_on(self) -> Result<Settled, AllocError>
        ensures settles { IfOk result (λ next. (rows : List RowView) (commands : List Command) → Settles rows commands self → SettlesOn rows commands next) }
        ensures nearer { IfOk result (HasFewerSteps self) }
    {
        let mut settling = self;
        if settling.at < settling.commands.len() {
            settling.apply_piece()?;
            return Ok(Settled::More(settling));
        }
        if settling.rows.len() < settling.keys.len() {
            settling.list_piece()?;
            return Ok(Settled::More(settling));
        }
        Ok(Settled::Done(settling.into_plan()))
    }
}

impl Settling {
    /// Applies the commands of a piece, at least one.
    fn apply_piece(&mut self) -> Result<(), AllocError>
        requires { self.old.at < length self.old.commands.items }
        ensures settles { OnOk result ((rows : List RowView) (commands : List Command) → Settles rows commands self.old → Settles rows commands self.new) }
        ensures nearer { OnOk result (steps_to_settle self.new < steps_to_settle self.old) }
    {
        let mut work = self.apply_next()?;
        'commands: while work < WORK && self.at < self.commands.len() {
            work = work.saturating_add(self.apply_next()?);
        }
        Ok(())
    }

    /// Applies the next command and drops it. It returns the work that the command was.
    fn apply_next(&mut self) -> Result<usize, AllocError>
        requires { self.old.at < length self.old.commands.items }
        ensures settles { OnOk result ((rows : List RowView) (commands : List Command) → Settles rows commands self.old → Settles rows commands self.new) }
        ensures nearer { OnOk result (steps_to_settle self.new < steps_to_settle self.old) }
    {
        let command = replace(&mut self.commands[self.at], Command::Purge(0));
        command_is_whole(&command);
        self.db.apply(&command)?;
        self.at += 1;
        Ok(work_of(&command))
    }

    /// Lists the rows under the keys of a piece, at least one.
    fn list_piece(&mut self) -> Result<(), AllocError>
        requires applied { length self.old.commands.items ≤ self.old.at }
        requires more { length self.old.rows.items < length self.old.keys.items }
        ensures settles { OnOk result ((rows : List RowView) (commands : List Command) → Settles rows commands self.old → Settles rows commands self.new) }
        ensures nearer { OnOk result (steps_to_settle self.new < steps_to_settle self.old) }
    {
        self.list_next()?;
        let mut listed = 1;
        'keys: while listed < KEYS && self.rows.len() < self.keys.len() {
            self.list_next()?;
            listed += 1;
        }
        Ok(())
    }

    /// Lists the row under the next key, and takes it out of the database.
    fn list_next(&mut self) -> Result<(), AllocError>
        requires applied { length self.old.commands.items ≤ self.old.at }
        requires more { length self.old.rows.items < length self.old.keys.items }
        ensures settles { OnOk result ((rows : List RowView) (commands : List Command) → Settles rows commands self.old → Settles rows commands self.new) }
        ensures nearer { OnOk result (steps_to_settle self.new < steps_to_settle self.old) }
        ensures commands { self.new.commands.items ≡ self.old.commands.items }
        ensures at { self.new.at ≡ self.old.at }
    {
        let key = self.keys[self.rows.len()];
        let row = row_at(&self.db, &key)?;
        self.db.apply(&Command::Remove(key.kind, key.id))?;
        self.size = self.size.saturating_add(record_len(&row));
        self.count = self.count.saturating_add(one_if_any(&row));
        self.rows.push(row)?;
        Ok(())
    }

    /// The plan, once all rows are listed.
    fn into_plan(self) -> Plan
        requires applied { length self.commands.items ≤ self.at }
        requires listed { length self.keys.items ≤ length self.rows.items }
        ensures { (rows : List RowView) (commands : List Command) → Settles rows commands self → IsPlanOf rows commands result }
    {
        commands_keep_database();
        merges_are_folds();
        let size = kept_bytes(&self.edits).saturating_add(self.size);
        let count = self.kept.saturating_add(self.count);
        Plan {
            edits: self.edits,
            rows: self.rows,
            size,
            count,
        }
    }
}

/// The work of a command: one, and one more for each row that it registers. A purge, which may
/// visit all rows, is the work of a piece.
fn work_of(command: &Command) -> usize {
    match command {
        Command::Register(registration) => registration.as_slice().len().saturating_add(1),
        Command::Purge(_) => WORK,
        Command::Remove(_, _) => 1,
    }
}

/// The segments of a command are whole.
pub(crate) fn command_is_whole(command: &Command)
    ensures { HasWholeSegments command.now }
{
    match command {
        Command::Register(registration) => {
            for row in registration.as_slice() {
                let _bytes = encoded_len(&row.1);
            }
        }
        Command::Purge(_) => {}
        Command::Remove(_, _) => {}
    }
}

/// The row of a database under a key. It shares its segment.
pub(crate) fn row_at(db: &PathDb, key: &Key) -> Result<Option<Row>, AllocError>
    ensures { IfOk result (λ row. option_map row_view row ≡ row_under (key_bytes key.now) db.now) }
{
    match db.get(key.kind, &key.id) {
        Some(segment) => Ok(Some(Row::new(key.kind, segment.try_clone()?))),
        None => Ok(None),
    }
}
