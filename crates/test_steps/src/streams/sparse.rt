//! A half of which a purge drops all rows but one of a hundred. The bytes of rows that are dropped
//! are read for the plan, and are not read again for what is written.

use crate::host::Host;
use crate::streams::commands::{add, fold, moment, registrations, room};
use crate::streams::prepared::prepare_all;
use crate::streams::sealed::sealed_half;
use crate::streams::watched::Watched;
use path_db::{Command, PathDb};
use sector_dev::MemDevice;
use std::alloc::Global;
use std::process::Abort;
use test_group_scripts::stores::{Contents, opened};
use test_group_scripts::work::work_of;
use test_support::{TestHost, assert_true};

/// The rows were made at a hundred different moments. A purge drops those of all moments but the
/// last.
const LAST_DROPPED: u64 = 98;

/// How many rows are left of 3,000, each of 93 bytes.
const LEFT: u64 = 30;

const CONTENTS: Contents = Contents {
    rows: LEFT as usize,
    bytes: 93 * LEFT,
    place: 1,
};

/// More pieces than the half has.
const MANY: usize = 1_000;

/// A store of which the first half has 3,000 rows, with a sealed journal of the purge.
fn sparse_half(rt: &Host<impl Abort>, alloc: Global) -> MemDevice {
    let mut db = PathDb::new(alloc);
    fold(rt, &mut db, &registrations(rt, alloc, 300, 3_000));
    let mut commands = room(rt, alloc, 1);
    add(rt, &mut commands, Command::Purge(moment(LAST_DROPPED)));
    sealed_half(rt, alloc, &db, &commands)
}

// At most four sectors are read for each row that is left, of the 545 that the rows have.
#[test]
fn dropped_rows_are_not_read_again(rt: HostRuntime) {
    let (rt, alloc) = (Host(&rt), rt.alloc());
    let device = Watched::over(&rt, alloc, sparse_half(&rt, alloc), u64::MAX);
    let mut work = work_of(&rt, alloc, opened(&rt, alloc, device));
    let is_whole = prepare_all(&rt, &mut work, MANY).is_some();
    assert_true(&rt, is_whole, "the pieces make an end");
    let planned = work.state.device().sectors_read();
    let work = work.checks_all(&rt);
    let made = work.state.device().sectors_read().saturating_sub(planned);
    assert_true(&rt, LEFT <= made, "each row that is left is read");
    assert_true(&rt, made <= 4 * LEFT, "few others are read");
    let _device = work.ends(&rt, CONTENTS);
}
