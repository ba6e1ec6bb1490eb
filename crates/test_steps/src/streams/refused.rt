//! Want of memory. The test is run with each of its allocations refused in turn: where one of
//! `begin` is refused, nothing has changed, and the same call succeeds when it is made again, with
//! the same bytes.

use crate::host::Host;
use crate::streams::commands::{add, fold, moment, register, registrations, removal_of};
use crate::streams::rounds::{assert_area, assert_opens, whole_round};
use crate::streams::sealed::sealed_half;
use crate::streams::watched::Watched;
use group_core::{BeginError, Numbers, Prepared};
use path_db::{Command, PathDb};
use sector_dev::MemDevice;
use std::alloc::Global;
use std::process::Abort;
use std::test::Fail;
use test_group_scripts::stores::opened;
use test_group_scripts::work::{Told, Work, work_of};
use test_support::{TestHost, assert_same, assert_true};

/// What is seen of a state.
#[derive(Clone, Copy, Debug, PartialEq, Eq)]
struct View {
    /// The numbers of the state.
    numbers: Numbers,
    /// The length in bytes of its window into the old area.
    window: usize,
    /// The length in bytes of its buffer of what is made and not written.
    made: usize,
    /// How many calls have changed its device.
    changes: usize,
}

/// What is seen of a state now.
fn seen(work: &Work<Watched<MemDevice>>) -> View {
    let state = &work.state;
    let (window, made) = state.buffer_lens();
    View {
        numbers: state.numbers(),
        window,
        made,
        changes: state.device().changes().len(),
    }
}

/// Prepares a piece, and once more where memory was refused, which changed nothing: whether all
/// pieces are prepared.
fn prepare_again(rt: &Host<impl Abort>, work: &mut Work<Watched<MemDevice>>) -> bool {
    let before = seen(work);
    let told = match work.state.prepare() {
        Err(BeginError::NoMemory) => work.state.prepare(),
        told => told,
    };
    assert_same(rt, &seen(work), &before, &"what is seen");
    match told {
        Ok(prepared) => prepared == Prepared::Whole,
        Err(refusal) => rt.fail(format_args!("{refusal:?}")),
    }
}

/// Begins a checkpoint, and once more where memory was refused, which changed nothing.
fn begin_again(rt: &Host<impl Abort>, work: Work<Watched<MemDevice>>) -> Work<Watched<MemDevice>> {
    let before = seen(&work);
    let (work, told) = work.check(rt);
    if told == Told::Done {
        return work;
    }
    assert_same(rt, &told, &Told::Begin(BeginError::NoMemory), &"begin");
    assert_same(rt, &seen(&work), &before, &"what is seen");
    assert_true(rt, work.state.is_free(), "no value is out");
    work.checks(rt, Told::Done)
}

/// More pieces than a half here has, and one that is begun anew.
const PIECES: usize = 20;

/// Prepares all pieces.
fn prepare_all(rt: &Host<impl Abort>, work: &mut Work<Watched<MemDevice>>) {
    let mut pieces = 0..PIECES;
    let is_whole = pieces.any(|_| prepare_again(rt, work));
    assert_true(rt, is_whole, "the pieces end");
}

/// Makes a round over a sealed half, of which all pieces are prepared or none, where memory may be
/// refused once: the device.
fn round_over(
    rt: &Host<impl Abort>,
    alloc: Global,
    device: MemDevice,
    is_prepared: bool,
) -> MemDevice {
    let watched = Watched::over(rt, alloc, device, u64::MAX);
    let mut work = work_of(rt, alloc, opened(rt, alloc, watched));
    if is_prepared {
        prepare_all(rt, &mut work);
    }
    let work = whole_round(rt, begin_again(rt, work));
    let (_changes, memory) = work.device(rt).into_parts();
    memory
}

/// Commands after the segments of 1,000 to 1,019, the first of which are in two registrations:
/// those of 1,016 to 1,023, those of 1,004 to 1,011 as they were made one second later, the
/// removals of 1,000 and 1,016, and a purge that drops 1,001 to 1,003.
fn commands_after(rt: &Host<impl Abort>, alloc: Global, olds: &[Command]) -> Vec<Command> {
    let mut commands = registrations(rt, alloc, 1016, 8);
    add(rt, &mut commands, register(rt, alloc, 1004, 8, 1));
    for old in olds {
        add(rt, &mut commands, removal_of(rt, old));
    }
    add(rt, &mut commands, Command::Purge(moment(34)));
    commands
}

/// How many rows are left then, of 24.
const LEFT: usize = 19;

/// Makes the checkpoint of rows with a sealed journal, and sees that it is that of the rows after
/// the commands.
fn assert_begun(
    rt: &Host<impl Abort>,
    alloc: Global,
    olds: &[Command],
    commands: &[Command],
    is_prepared: bool,
) {
    let mut db = PathDb::new(alloc);
    fold(rt, &mut db, olds);
    let device = sealed_half(rt, alloc, &db, commands);
    fold(rt, &mut db, commands);
    assert_same(rt, &db.rows().count(), &LEFT, &"rows");
    let mut device = round_over(rt, alloc, device, is_prepared);
    let place = commands.len() as u64;
    assert_area(rt, alloc, &mut device, &db, place);
    let _device = assert_opens(rt, alloc, device, &db, place);
}

#[test]
fn refused_begins_may_be_tried_again(rt: HostRuntime) -> Result<(), Fail> {
    let host = Host(&rt);
    let olds = registrations(&host, rt.alloc(), 1000, 20);
    let commands = commands_after(&host, rt.alloc(), &olds);
    assert_begun(&host, rt.alloc(), &olds, &commands, false);
    Ok(())
}

#[test]
fn refused_pieces_may_be_prepared_again(rt: HostRuntime) -> Result<(), Fail> {
    let host = Host(&rt);
    let olds = registrations(&host, rt.alloc(), 1000, 20);
    let commands = commands_after(&host, rt.alloc(), &olds);
    assert_begun(&host, rt.alloc(), &olds, &commands, true);
    Ok(())
}
