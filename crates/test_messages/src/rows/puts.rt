//! Registrations: of two segments with one key the newer one is kept.

use crate::checks;
use crate::host::Host;
use crate::rows::worked::{apply, dated, four, len_of, no_rows, put, register, standing};
use path_db::{ApplyError, Command, Outcome, PathDb, Registration};
use seg_core::SegType;
use std::alloc::Global;
use std::test::Fail;
use test_support::{TestHost, assert_same};

/// The outcome of a registration.
fn done(inserted: u32, updated: u32, kept: u32) -> Outcome {
    Outcome {
        inserted,
        updated,
        kept,
        purged: 0,
    }
}

/// Registers a segment, and checks the outcome, and the segment id of the row.
fn assert_put(
    rt: &impl TestHost,
    alloc: Global,
    database: &mut PathDb,
    (timestamp, segment_id): (u8, u8),
    (outcome, stands): (Outcome, u16),
) -> Result<(), Fail> {
    let segment = dated(alloc, timestamp, segment_id)?;
    let found = put(alloc, database, SegType::Down, segment)?;
    assert_same(rt, &found, &outcome, &timestamp);
    assert_same(rt, &standing(database), &Some(stands), &timestamp);
    Ok(())
}

/// Registers one segment with the timestamps 10, 11, 11 and 9, each time with another segment id.
fn assert_puts(rt: &impl TestHost, alloc: Global, database: &mut PathDb) -> Result<(), Fail> {
    for (put, found) in &[
        ((10, 1), (done(1, 0, 0), 1)),
        ((11, 2), (done(0, 1, 0), 2)),
        ((11, 3), (done(0, 0, 1), 2)),
        ((9, 4), (done(0, 0, 1), 2)),
    ] {
        assert_put(rt, alloc, database, *put, *found)?;
    }
    Ok(())
}

// One segment with the timestamps 10, 11, 11 and 9, each time with another segment id, by which the
// row is recognized.
#[test]
fn newer_timestamp_wins(rt: HostRuntime) -> Result<(), Fail> {
    assert_puts(&Host(&rt), rt.alloc(), &mut no_rows(rt.alloc()))
}

/// Checks that the second of four segments is there once they are registered.
fn assert_second_stands(
    rt: &impl TestHost,
    database: &mut PathDb,
    command: &Command,
) -> Result<(), Fail> {
    let outcome = apply(database, command)?;
    assert_same(rt, &outcome, &done(1, 1, 2), &"the outcome");
    assert_same(rt, &standing(database), &Some(2), &"the row");
    Ok(())
}

/// The command that registers four segments.
fn register_four(rt: &impl TestHost, alloc: Global) -> Result<Command, Fail> {
    let registration = four(alloc)?;
    assert_same(rt, &registration.as_slice().len(), &4, &"segments");
    Ok(Command::Register(Registration::new(registration.into_vec())))
}

// One registration, whose segments are put in their order.
#[test]
fn puts_are_in_order(rt: HostRuntime) -> Result<(), Fail> {
    let command = register_four(&Host(&rt), rt.alloc())?;
    assert_second_stands(&Host(&rt), &mut no_rows(rt.alloc()), &command)
}

/// The bytes of a database to which only this command was applied.
fn len_of_one(alloc: Global, command: &Command) -> Result<u64, Fail> {
    let mut database = no_rows(alloc);
    apply(&mut database, command)?;
    Ok(len_of(&database))
}

/// Applies a command within a limit.
fn apply_within(
    database: &mut PathDb,
    command: &Command,
    most: u64,
) -> Result<Outcome, ApplyError> {
    database.apply_within(command, most)
}

/// Checks that a command whose rows take this number of bytes is refused by a limit of one byte
/// less, and applied within the limit.
fn assert_within(
    rt: &impl TestHost,
    database: &mut PathDb,
    command: &Command,
    most: u64,
) -> Result<(), Fail> {
    let refused = apply_within(database, command, most.saturating_sub(1));
    assert_same(rt, &refused, &Err(ApplyError::Full), &"a byte too few");
    assert_same(rt, &len_of(database), &0, &"bytes");
    let found = apply_within(database, command, most)?;
    assert_same(rt, &found, &done(1, 0, 0), &"within the limit");
    Ok(())
}

/// Checks that a purge of nothing is applied with a limit of 0 bytes, and leaves this number of
/// bytes.
fn assert_purged(rt: &impl TestHost, database: &mut PathDb, len: u64) {
    let found = apply_within(database, &Command::Purge(0), 0).ok();
    assert_same(rt, &found, &Some(done(0, 0, 0)), &"the outcome");
    assert_same(rt, &len_of(database), &len, &"bytes");
}

/// Checks that the registration of a segment may reach the limit, and that a purge of nothing is
/// applied with any limit.
fn assert_limits(rt: &impl TestHost, alloc: Global, database: &mut PathDb) -> Result<(), Fail> {
    let command = register(alloc, SegType::Down, dated(alloc, 10, 1)?)?;
    let most = len_of_one(alloc, &command)?;
    assert_within(rt, database, &command, most)?;
    assert_purged(rt, database, most);
    Ok(())
}

// A registration may reach the limit, and is not applied one byte above it. A purge is applied with
// any limit.
#[test]
fn rows_stay_within_the_limit(rt: HostRuntime) {
    let checked = assert_limits(&Host(&rt), rt.alloc(), &mut no_rows(rt.alloc()));
    checks::done(&rt, checked);
}
