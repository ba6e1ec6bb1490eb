//! The row under one key after commands.

use crate::checks::done;
use crate::host::Host;
use crate::rows::worked::{ID, dated, four, register};
use path_db::Command;
use path_records::{Key, row_after};
use seg_core::SegType;
use std::alloc::{AllocError, Global};
use std::test::Fail;
use test_support::{TestHost, assert_same};

/// The segment id of the row that commands leave under the worked segment's key as a down segment,
/// where there was none.
fn left(commands: &[Command]) -> Result<Option<u16>, AllocError> {
    let key = Key {
        kind: SegType::Down,
        id: ID,
    };
    let row = row_after(&key, None, commands)?;
    Ok(row.map(|row| row.segment.segment_id()))
}

/// Adds a command to those before it, and checks what is left then.
fn assert_left(
    rt: &impl TestHost,
    commands: &mut Vec<Command>,
    command: Command,
    found: Option<u16>,
) -> Result<(), Fail> {
    commands.push(command)?;
    assert_same(rt, &left(commands)?, &found, &commands.len());
    Ok(())
}

/// The command that registers four segments with one key.
fn register_four(alloc: Global) -> Result<Command, Fail> {
    Ok(Command::Register(four(alloc)?))
}

/// The command that registers one more.
fn register_later(alloc: Global) -> Result<Command, Fail> {
    register(alloc, SegType::Down, dated(alloc, 9, 4)?)
}

/// Checks what is left after each of the commands, and those before it.
fn assert_all_left(
    rt: &impl TestHost,
    alloc: Global,
    commands: &mut Vec<Command>,
) -> Result<(), Fail> {
    assert_left(rt, commands, register_four(alloc)?, Some(2))?;
    assert_left(rt, commands, Command::Purge(43_221), Some(2))?;
    assert_left(rt, commands, Command::Remove(SegType::Core, ID), Some(2))?;
    assert_left(rt, commands, Command::Purge(43_222), None)?;
    assert_left(rt, commands, register_later(alloc)?, Some(4))?;
    assert_left(rt, commands, Command::Remove(SegType::Down, ID), None)
}

// Of four segments with one key the second is left, which expires at 43,222: what is there after
// each of the commands, and those before it.
#[test]
fn one_row_is_left(rt: HostRuntime) {
    let checked = assert_all_left(&Host(&rt), rt.alloc(), &mut Vec::new(rt.alloc()));
    done(&rt, checked);
}
