//! Scripts of long runs, and what is seen of one whose device fails in an event.

use crate::following_runs::{FOLLOWED_NEW, FOLLOWED_OLD};
use crate::left::{Ending, Left, is_failure};
use crate::long_runs::{NEW, OLD};
use crate::outs::{NONE_OUT, Out};
use crate::rounds::{FLUSHER, ROUND, SEALED_AT, with_sealed_purge};
use crate::short_runs::{FIRST, READS, SHORT_NEW, SHORT_OLD, with_purges};
use group_recovery::{Event, Reply};
use path_db::{Command, PathDb};
use path_records::write_rows;
use sector_dev::{Device, MemDevice, SECTOR};
use std::alloc::Global;
use std::test::Fail;
use store_open::{Geometry, Store};
use test_group_scripts::acts::{Line, Said, events_of, heard, joined};
use test_group_scripts::stores::{LEAST, bytes_of, change, formatted};
use test_group_scripts::values::calls_device;
use test_support::{TestHost, assert_same};

/// Areas for checkpoints of two chunks, and the least journals.
const WIDE: Geometry = Geometry {
    checkpoint: 300,
    journal: 516,
};

/// How far the reads are apart that are tried of groups that follow each other.
const FEW_READS: u64 = 97;

/// A script, its events, the rows after each of its accepted commands, and the store that it starts
/// from: its version, its place, its sizes, and its image. It has no rows.
#[derive(Drop)]
pub struct Script {
    pub lines: Vec<Line>,
    pub events: Vec<Event>,
    folds: Vec<Vec<u8>>,
    version: u8,
    first: u64,
    geometry: Geometry,
    pub image: Vec<u8>,
    /// Of the reads between two calls that write or sync, each of this distance is tried.
    pub apart: u64,
}

/// The records of the rows of a database.
fn records(rt: &impl TestHost, alloc: Global, db: &PathDb) -> Vec<u8> {
    let mut records = Vec::new(alloc);
    if write_rows(db, &mut records).is_err() {
        rt.fail("out of memory");
    }
    records
}

/// The rows after each of the commands that are said to be accepted.
fn folds_of(
    rt: &impl TestHost,
    alloc: Global,
    lines: &[Line],
    events: &[Event],
) -> Result<Vec<Vec<u8>>, Fail> {
    let mut folds = Vec::new(alloc);
    push_folds(rt, alloc, &mut folds, lines, events)?;
    Ok(folds)
}

/// Appends the rows before all of these lines, and after each of the commands that are said to be
/// accepted.
fn push_folds(
    rt: &impl TestHost,
    alloc: Global,
    folds: &mut Vec<Vec<u8>>,
    lines: &[Line],
    events: &[Event],
) -> Result<(), Fail> {
    let mut db = PathDb::new(alloc);
    push_fold(rt, alloc, &db, folds)?;
    for (line, event) in lines.iter().zip(events) {
        fold_line(rt, alloc, &mut db, folds, *line, event)?;
    }
    Ok(())
}

/// Appends the records of the rows of a database.
fn push_fold(
    rt: &impl TestHost,
    alloc: Global,
    db: &PathDb,
    folds: &mut Vec<Vec<u8>>,
) -> Result<(), Fail> {
    folds.push(records(rt, alloc, db))?;
    Ok(())
}

/// Applies a command that is said to be accepted, and appends the rows after it.
fn fold_line(
    rt: &impl TestHost,
    alloc: Global,
    db: &mut PathDb,
    folds: &mut Vec<Vec<u8>>,
    (_act, wanted): Line,
    event: &Event,
) -> Result<(), Fail> {
    if let (Event::Submit(command), Said::Accepted(_place)) = (event, wanted) {
        apply(db, command)?;
        push_fold(rt, alloc, db, folds)?;
    }
    Ok(())
}

/// Applies a command.
fn apply(db: &mut PathDb, command: &Command) -> Result<(), Fail> {
    db.apply(command)?;
    Ok(())
}

/// The store that a script starts from.
struct Start {
    version: u8,
    place: u64,
    geometry: Geometry,
    device: MemDevice,
}

/// The lines of these parts, their events, and the rows after each command that is accepted.
fn told_of(
    rt: &impl TestHost,
    alloc: Global,
    parts: &[&[Line]],
) -> Result<(Vec<Line>, Vec<Event>, Vec<Vec<u8>>), Fail> {
    let lines = joined(rt, alloc, parts);
    let events = events_of(rt, alloc, &lines);
    let folds = folds_of(rt, alloc, &lines, &events)?;
    Ok((lines, events, folds))
}

/// The script of these parts, which starts from this store. Of reads each `apart`-th one is tried.
fn script_of(
    rt: &impl TestHost,
    alloc: Global,
    parts: &[&[Line]],
    start: Start,
    apart: u64,
) -> Result<Script, Fail> {
    let Start {
        version,
        place,
        geometry,
        mut device,
    } = start;
    let (lines, events, folds) = told_of(rt, alloc, parts)?;
    let image = bytes_of(rt, alloc, &mut device, geometry.sectors() as usize);
    Ok(Script {
        lines,
        events,
        folds,
        version,
        first: place,
        geometry,
        image,
        apart,
    })
}

/// A new store of these sizes and of version 1 or 2.
fn new_store(rt: &impl TestHost, alloc: Global, geometry: Geometry, version: u8) -> MemDevice {
    let mut device = formatted(rt, alloc, geometry, geometry.sectors());
    change(&mut device, 1, 7, &[version]);
    device
}

/// The long script, which starts from a new store of version 1 or 2.
pub fn long_script(rt: &impl TestHost, alloc: Global, version: u8) -> Result<Script, Fail> {
    let parts: &[&[Line]] = if version == 1 { &OLD } else { &NEW };
    let start = Start {
        version,
        place: 0,
        geometry: WIDE,
        device: new_store(rt, alloc, WIDE, version),
    };
    script_of(rt, alloc, parts, start, 1)
}

/// A store of version 1 or 2 whose first journal is nearly full.
fn nearly_full(rt: &impl TestHost, alloc: Global, version: u8) -> Start {
    Start {
        version,
        place: FIRST,
        geometry: LEAST,
        device: with_purges(new_store(rt, alloc, LEAST, version)),
    }
}

/// The short script, which starts from such a store.
pub fn short_script(rt: &impl TestHost, alloc: Global, version: u8) -> Result<Script, Fail> {
    let parts: &[&[Line]] = if version == 1 { &SHORT_OLD } else { &SHORT_NEW };
    script_of(rt, alloc, parts, nearly_full(rt, alloc, version), READS)
}

/// The script of groups that follow each other, which starts from such a store.
pub fn followed_script(rt: &impl TestHost, alloc: Global, version: u8) -> Result<Script, Fail> {
    let parts: &[&[Line]] = if version == 1 {
        &FOLLOWED_OLD
    } else {
        &FOLLOWED_NEW
    };
    script_of(rt, alloc, parts, nearly_full(rt, alloc, version), FEW_READS)
}

/// The script of groups that follow each other with a whole round of the checkpointer before the
/// line of this number. It starts from a store of version 1 or 2 whose first journal is sealed.
pub fn round_script(
    rt: &impl TestHost,
    alloc: Global,
    version: u8,
    before: usize,
) -> Result<Script, Fail> {
    let (front, rest) = FLUSHER.split_at_checked(before).unwrap_or((FLUSHER, &[]));
    let start = Start {
        version,
        place: SEALED_AT,
        geometry: LEAST,
        device: with_sealed_purge(new_store(rt, alloc, LEAST, version)),
    };
    script_of(rt, alloc, &[front, ROUND, rest], start, FEW_READS)
}

impl Script {
    /// A device of the size of the store that it starts from.
    pub fn device(&self, rt: &impl TestHost, alloc: Global) -> MemDevice {
        formatted(rt, alloc, self.geometry, self.geometry.sectors())
    }

    /// How many sectors that store takes.
    pub fn sectors(&self) -> usize {
        self.image.len() / SECTOR
    }

    /// What is left of its run where no event was done yet.
    pub fn none_left(&self) -> Left {
        Left::nothing(self.first, self.version)
    }
}

/// Sees that a store holds the fold of as many of a script's commands as its place says, which is
/// between these: the place, and the device.
pub fn fronted<D: Device>(
    rt: &impl TestHost,
    alloc: Global,
    script: &Script,
    store: Store<D>,
    (least, most): (u64, u64),
) -> (u64, D) {
    let place = store.place();
    assert_between(rt, place, least, most);
    assert_fold(rt, alloc, script, store.db(), place);
    (place, store.into_device())
}

/// Sees that a place is between these.
fn assert_between(rt: &impl TestHost, place: u64, least: u64, most: u64) {
    let is_between = least <= place && place <= most;
    assert_same(rt, &is_between, &true, &(least, place, most));
}

/// Sees that rows are the fold of this number of a script's commands.
fn assert_fold(rt: &impl TestHost, alloc: Global, script: &Script, db: &PathDb, place: u64) {
    let rows = records(rt, alloc, db);
    let number = place.saturating_sub(script.first) as usize;
    let Some(fold) = script.folds.get(number) else {
        rt.fail(format_args!("{place}"));
    };
    assert_same(rt, &(fold.as_slice() == rows.as_slice()), &true, &place);
}

/// What is out after an event that the device failed in, or that was answered as the script says:
/// whether it failed.
fn seen_before(
    rt: &impl TestHost,
    out: Out,
    number: usize,
    (act, wanted): Line,
    got: Said,
) -> (Out, bool) {
    if is_failure(got) {
        assert_same(rt, &calls_device((act, wanted)), &true, &(act, number));
        return (out.without(act), true);
    }
    assert_same(rt, &got, &wanted, &(act, number));
    (out.after((act, wanted)), false)
}

/// What is out after an event that is answered as by a state that has stopped. The places of
/// accepted commands are from `first` to before `accepted`.
fn seen_behind(
    rt: &impl TestHost,
    out: Out,
    (first, accepted): (u64, u64),
    number: usize,
    line: Line,
    got: Said,
) -> Out {
    let (out, told) = out.stopped(first, accepted, line);
    assert_same(rt, &got, &told, &(line.0, number));
    out
}

/// Sees that replies are as the script says up to the event in which the device failed, and after
/// it as those of a state that has stopped.
pub fn seen(rt: &impl TestHost, script: &Script, replies: &[Reply]) -> Left {
    let mut left = script.none_left();
    let mut out = NONE_OUT;
    for (number, (line, reply)) in script.lines.iter().zip(replies).enumerate() {
        let got = heard(reply);
        if left.ending == Ending::Whole {
            let has_failed;
            (out, has_failed) = seen_before(rt, out, number, *line, got);
            if has_failed {
                left.ending = Ending::Failed(number);
            }
        } else {
            out = seen_behind(rt, out, (script.first, left.accepted), number, *line, got);
        }
        left = left.with(line.0, got);
    }
    left
}
