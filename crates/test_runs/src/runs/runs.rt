//! Runs of lists of events: each event's reply, lists that are cut in two, and the ends of runs.

ghost use Rattle.std.specs.Prelude.{◌≡◌, false};

use crate::host::Host;
use group_core::{
    BeginError, FollowError, PlainShow, Plan, Redeemed, StageError, Staged, State, StepError,
    SubmitError, Ticket,
};
use group_recovery::{Event, Reply, Run, StepRefusal};
use path_db::{Command, PathDb};
use sector_dev::{Device, MemDevice};
use seg_lookup::answer;
use std::alloc::Global;
use std::process::Abort;
use std::test::Fail;
use test_group_scripts::acts::{
    Act, EIGHT_OLDER, GONE, GROUP, INSERTED, Line, Said, events_of, heard, joined, query, shown,
};
use test_group_scripts::runs::{begun, done, ended};
use test_group_scripts::stores::{SECTORS, bytes_of, opened, sealed_store};
use test_group_scripts::work::state_of;
use test_support::{TestHost, assert_same};

/// What a state is given and answers whose store was sealed at place 1, after the segment left by
/// interface 1.
const TOLD: [&[Line]; 8] = [
    // Nothing is out. Then a group is staged and written.
    &[
        (Act::Stage, Said::Stage(StageError::Empty)),
        (Act::WriteGroup, Said::NoValue),
        (Act::SyncGroup, Said::NoValue),
        (Act::OpenGate, Said::NoValue),
        (Act::SyncGate, Said::NoValue),
        (Act::Publish, Said::NoValue),
        (Act::Follow, Said::NoValue),
        (Act::WriteFollowing, Said::NoValue),
        (Act::SyncFollowed, Said::NoValue),
        (Act::PublishFollowed, Said::NoValue),
        (Act::WriteChunk, Said::NoValue),
        (Act::SyncChunks, Said::NoValue),
        (Act::OpenHalf, Said::NoValue),
        (Act::SyncHalf, Said::NoValue),
        (Act::CloseHalf, Said::NoValue),
        (Act::SyncClose, Said::NoValue),
        (Act::Redeem(0), Said::NoValue),
        (Act::Lookup, Said::Shows(0b10)),
        (Act::Put(2), Said::Accepted(1)),
        (Act::Redeem(0), Said::Waiting(1)),
        (Act::Lookup, Said::Shows(0b10)),
        (Act::Stage, Said::Done),
        (Act::Stage, Said::Stage(StageError::InFlight)),
        (Act::SyncGroup, Said::NoValue),
        (Act::WriteGroup, Said::Done),
        (Act::WriteGroup, Said::NoValue),
        (Act::SyncGroup, Said::Done),
        (Act::Put(3), Said::Accepted(2)),
    ],
    // It is committed once it is published.
    &[
        (Act::OpenGate, Said::Done),
        (Act::SyncGate, Said::Done),
        (Act::Lookup, Said::Shows(0b10)),
        (Act::Redeem(0), Said::Waiting(1)),
        (Act::Publish, Said::Done),
        (Act::Lookup, Said::Shows(0b110)),
        (Act::Redeem(0), Said::Committed(1, INSERTED)),
        (Act::Redeem(0), Said::NoValue),
        (Act::Redeem(1), Said::Waiting(2)),
        (Act::Redeem(2), Said::NoValue),
        (Act::Remove(1), Said::Accepted(3)),
        (Act::Stage, Said::Done),
        (Act::WriteGroup, Said::Done),
        (Act::SyncGroup, Said::Done),
    ],
    // Tickets are redeemed in any order. What is large fits only where it is kept out by a later
    // one.
    &[
        (Act::OpenGate, Said::Done),
        (Act::Follow, Said::Follow(FollowError::Empty)),
        (Act::SyncGate, Said::Done),
        (Act::Publish, Said::Done),
        (Act::Redeem(2), Said::Committed(3, GONE)),
        (Act::Redeem(1), Said::Committed(2, INSERTED)),
        (Act::Lookup, Said::Shows(0b1100)),
        (Act::Older, Said::Refused(SubmitError::Full)),
        (Act::Put(1), Said::Accepted(4)),
        (Act::Older, Said::Accepted(5)),
        (Act::Stage, Said::Done),
        (Act::WriteGroup, Said::Done),
        (Act::SyncGroup, Said::Done),
    ],
    // The tail's gate is in sector 262 of the journal then: 257 more sectors do not fit.
    &[
        (Act::OpenGate, Said::Done),
        (Act::SyncGate, Said::Done),
        (Act::Publish, Said::Done),
        (Act::Redeem(3), Said::Committed(4, INSERTED)),
        (Act::Redeem(4), Said::Committed(5, EIGHT_OLDER)),
        (Act::Older, Said::Accepted(6)),
        (Act::Stage, Said::Stage(StageError::NoRoom)),
        (Act::Prepare, Said::Done),
        (Act::Stage, Said::Stage(StageError::NoRoom)),
        (Act::Begin, Said::Done),
        (Act::Begin, Said::Begin(BeginError::InFlight)),
        (Act::Prepare, Said::Begin(BeginError::InFlight)),
        (Act::SyncChunks, Said::NoValue),
        (Act::OpenHalf, Said::NoValue),
        (Act::WriteChunk, Said::Done),
        (Act::WriteChunk, Said::NoValue),
        (Act::SyncChunks, Said::Done),
        (Act::SyncChunks, Said::NoValue),
        (Act::OpenHalf, Said::Done),
        (Act::SyncHalf, Said::Done),
        (Act::CloseHalf, Said::Done),
        (Act::Stage, Said::Stage(StageError::NoRoom)),
        (Act::SyncClose, Said::Done),
        (Act::Begin, Said::Begin(BeginError::NotSealed)),
        (Act::Prepare, Said::Begin(BeginError::NotSealed)),
        (Act::Lookup, Said::Shows(0b1110)),
    ],
    // That was a round; the other half is ready, and a seal is staged.
    &GROUP,
    &[
        (Act::Redeem(5), Said::Waiting(6)),
        (Act::Stage, Said::Done),
        (Act::WriteGroup, Said::Done),
        (Act::SyncGroup, Said::Done),
    ],
    // The group goes to the other journal. A second round is begun, and a further group is written.
    &[
        (Act::OpenGate, Said::Done),
        (Act::SyncGate, Said::Done),
        (Act::Publish, Said::Done),
        (Act::Redeem(5), Said::Committed(6, EIGHT_OLDER)),
        (Act::Begin, Said::Done),
        (Act::Put(4), Said::Accepted(7)),
        (Act::Put(5), Said::Accepted(8)),
        (Act::Stage, Said::Done),
        (Act::WriteGroup, Said::Done),
        (Act::Halt, Said::Done),
    ],
    &[
        (Act::Put(6), Said::Refused(SubmitError::Stopped)),
        (Act::Stage, Said::Stage(StageError::Stopped)),
        (Act::Begin, Said::Begin(BeginError::Stopped)),
        (Act::Prepare, Said::Begin(BeginError::Stopped)),
        (Act::SyncGroup, Said::Step(StepRefusal::Stopped)),
        (Act::SyncGroup, Said::NoValue),
        (Act::WriteChunk, Said::Step(StepRefusal::Stopped)),
        (Act::WriteChunk, Said::NoValue),
        (Act::Redeem(6), Said::Unknown(7)),
        (Act::Redeem(6), Said::NoValue),
        (Act::Redeem(7), Said::Unknown(8)),
        (Act::Publish, Said::NoValue),
        (Act::Lookup, Said::Shows(0b1110)),
        (Act::Halt, Said::Done),
    ],
];

/// What the device opens to after a number of events.
#[derive(Clone, Copy)]
struct OpensTo {
    /// The greatest number of events after which it does so.
    most: usize,
    /// The place to which it opens.
    place: u64,
    /// The interfaces by which the segments of its rows are left, a bit for each.
    rows: u64,
}

/// Each row holds for the numbers of events above those of the row before it.
#[rattlefmt::skip]
const PLACES: [OpensTo; 5] = [
    OpensTo { most: 28, place: 1, rows: 0b10 },
    OpensTo { most: 42, place: 2, rows: 0b110 },
    OpensTo { most: 55, place: 4, rows: 0b1100 },
    OpensTo { most: 91, place: 6, rows: 0b1110 },
    OpensTo { most: 115, place: 7, rows: 0b1110 },
];

/// The place to which the device opens after this number of events, and its rows.
fn place_behind(count: usize) -> (u64, u64) {
    for row in PLACES {
        if count <= row.most {
            return (row.place, row.rows);
        }
    }
    (0, 0)
}

/// What is given and answered.
fn told_lines(rt: &Host<impl Abort>, alloc: Global) -> Vec<Line> {
    joined(rt, alloc, &TOLD)
}

/// A run of a state of the store that was sealed.
pub(crate) fn sealed_run(rt: &Host<impl Abort>, alloc: Global) -> Run<MemDevice> {
    begun(rt, alloc, opened(rt, alloc, sealed_store(rt, alloc, 2)))
}

/// The place and the rows to which the device of a run opens that has ended.
pub(crate) fn rested(rt: &Host<impl Abort>, alloc: Global, held: Run<MemDevice>) -> (u64, PathDb) {
    let store = opened(rt, alloc, ended(rt, held));
    let place = store.place();
    let (_device, db) = store.into_parts();
    (place, db)
}

/// The bytes of the device of a run that has ended.
fn device_bytes(rt: &Host<impl Abort>, alloc: Global, held: Run<MemDevice>) -> Vec<u8> {
    let mut device = ended(rt, held);
    bytes_of(rt, alloc, &mut device, SECTORS as usize)
}

/// Sees that replies are as the script says.
fn assert_told(rt: &Host<impl Abort>, lines: &[Line], replies: &[Reply]) {
    assert_same(rt, &replies.len(), &lines.len(), &"replies");
    for (reply, (act, wanted)) in replies.iter().zip(lines) {
        assert_same(rt, &heard(reply), wanted, act);
    }
}

/// Does events in a run, and sees what they are answered.
fn assert_done(
    rt: &Host<impl Abort>,
    alloc: Global,
    held: Run<MemDevice>,
    lines: &[Line],
    events: &[Event],
) -> Run<MemDevice> {
    let (held, replies) = done(rt, alloc, held, events);
    assert_told(rt, lines, &replies);
    held
}

#[test]
fn every_event_is_answered(rt: HostRuntime) -> Result<(), Fail> {
    let host = Host(&rt);
    let lines = told_lines(&host, rt.alloc());
    let events = events_of(&host, rt.alloc(), &lines);
    let held = sealed_run(&host, rt.alloc());
    let held = assert_done(&host, rt.alloc(), held, &lines, &events);
    let _device = ended(&host, held);
    Ok(())
}

/// Sees that events that are cut in two after this number of events leave the same bytes.
fn assert_cut(
    rt: &Host<impl Abort>,
    alloc: Global,
    lines: &[Line],
    events: &[Event],
    count: usize,
    whole: &[u8],
) {
    assert!(rt.0; count <= events.len() && count <= lines.len());
    let (front, rest) = events.split_at(count);
    let (told, told_next) = lines.split_at(count);
    let held = assert_done(rt, alloc, sealed_run(rt, alloc), told, front);
    let held = assert_done(rt, alloc, held, told_next, rest);
    assert_bytes(rt, alloc, held, whole, count);
}

/// Sees which bytes the device of a run has that has ended.
fn assert_bytes(
    rt: &Host<impl Abort>,
    alloc: Global,
    held: Run<MemDevice>,
    whole: &[u8],
    count: usize,
) {
    let bytes = device_bytes(rt, alloc, held);
    assert_same(rt, &(bytes.as_slice() == whole), &true, &count);
}

/// Sees so for a third of the numbers of events, so that the test is short.
fn assert_cuts(
    rt: &Host<impl Abort>,
    alloc: Global,
    lines: &[Line],
    events: &[Event],
    whole: &[u8],
) {
    for count in 0..=events.len().min(lines.len()) {
        if count % 3 == 0 {
            assert_cut(rt, alloc, lines, events, count, whole);
        }
    }
}

/// A run of a state of the store that was sealed, after these events.
fn run_after(rt: &Host<impl Abort>, alloc: Global, events: &[Event]) -> Run<MemDevice> {
    let (held, _replies) = done(rt, alloc, sealed_run(rt, alloc), events);
    held
}

#[test]
fn lists_may_be_cut_in_two(rt: HostRuntime) -> Result<(), Fail> {
    let host = Host(&rt);
    let lines = told_lines(&host, rt.alloc());
    let events = events_of(&host, rt.alloc(), &lines);
    let held = run_after(&host, rt.alloc(), &events);
    let whole = device_bytes(&host, rt.alloc(), held);
    assert_cuts(&host, rt.alloc(), &lines, &events, &whole);
    Ok(())
}

/// Sees to what the device of a run opens that ends after these events.
fn assert_end(rt: &Host<impl Abort>, alloc: Global, front: &[Event]) -> Result<(), Fail> {
    let (place, db) = rested(rt, alloc, run_after(rt, alloc, front));
    let rows = rows_shown(&db)?;
    let count = front.len();
    assert_same(rt, &(place, rows), &place_behind(count), &count);
    Ok(())
}

/// The interfaces by which the segments of a database's rows are left: a bit for each.
fn rows_shown(db: &PathDb) -> Result<u64, Fail> {
    Ok(shown(&answer(db, &query(), 0)?))
}

/// Sees so for each number of these events.
fn assert_ends(rt: &Host<impl Abort>, alloc: Global, events: &[Event]) -> Result<(), Fail> {
    assert_same(rt, &events.len(), &115, &"events");
    for count in 0..=events.len() {
        let (front, _rest) = events.split_at(count);
        assert_end(rt, alloc, front)?;
    }
    Ok(())
}

#[test]
fn runs_end_anywhere(rt: HostRuntime) -> Result<(), Fail> {
    let host = Host(&rt);
    let events = events_of(&host, rt.alloc(), &told_lines(&host, rt.alloc()));
    assert_ends(&host, rt.alloc(), &events)
}

/// The state that no run is made of.
fn not_begun<D: Device>(
    rt: &Host<impl Abort>,
    alloc: Global,
    state: State<D, PlainShow>,
) -> State<D, PlainShow> {
    match Run::new(alloc, state) {
        Err(state) => state,
        Ok(_held) => rt.fail("a run"),
    }
}

/// The ticket of a purge that is submitted.
fn submitted(rt: &Host<impl Abort>, state: &mut State<MemDevice, PlainShow>) -> Ticket {
    match state.submit(Command::Purge(0)) {
        Ok(ticket) => ticket,
        Err(_refused) => rt.fail("refused"),
    }
}

/// A group that is staged.
fn group_of(rt: &Host<impl Abort>, state: &mut State<MemDevice, PlainShow>) -> Staged {
    match state.stage() {
        Ok(staged) => staged,
        Err(_refused) => rt.fail("not staged"),
    }
}

/// A checkpoint that is begun, of which a chunk is left to be written.
fn plan_of(rt: &Host<impl Abort>, state: &mut State<MemDevice, PlainShow>) -> Plan
    ensures { result.phase.done ≡ false }
{
    match state.begin() {
        Ok(plan) => plan,
        Err(_refused) => rt.fail("not begun"),
    }
}

/// Sees that a state that has stopped writes no group.
fn assert_no_group(rt: &Host<impl Abort>, state: &mut State<MemDevice, PlainShow>, staged: Staged) {
    match state.write_group(staged) {
        Err(StepError::Stopped) => {}
        _other => rt.fail("written"),
    }
}

/// Sees that it writes no chunk of a checkpoint.
fn assert_no_chunk(rt: &Host<impl Abort>, state: &mut State<MemDevice, PlainShow>, plan: Plan)
    requires { plan.phase.done ≡ false }
{
    match state.write_chunk(plan) {
        Err(StepError::Stopped) => {}
        _other => rt.fail("written"),
    }
}

/// Sees that the fate of a command at place 1 is not known.
fn assert_unknown(rt: &Host<impl Abort>, state: &mut State<MemDevice, PlainShow>, ticket: Ticket) {
    match state.redeem(ticket) {
        Redeemed::Unknown(place) => assert_same(rt, &place, &1, &"a place"),
        _other => rt.fail("known"),
    }
}

/// The run of a state of which no value is out.
fn run_of(
    rt: &Host<impl Abort>,
    alloc: Global,
    state: State<MemDevice, PlainShow>,
) -> Run<MemDevice> {
    match Run::new(alloc, state) {
        Ok(held) => held,
        Err(_state) => rt.fail("a value is out"),
    }
}

#[test]
fn no_run_begins_while_a_value_is_out(rt: HostRuntime) -> Result<(), Fail> {
    let host = Host(&rt);
    let store = opened(&host, rt.alloc(), sealed_store(&host, rt.alloc(), 2));
    let mut state = state_of(&host, rt.alloc(), store, 1);
    let ticket = submitted(&host, &mut state);
    let staged = group_of(&host, &mut state);
    let mut state = not_begun(&host, rt.alloc(), state);
    let plan = plan_of(&host, &mut state);
    let mut state = not_begun(&host, rt.alloc(), state);
    state.halt();
    assert_no_group(&host, &mut state, staged);
    let mut state = not_begun(&host, rt.alloc(), state);
    assert_no_chunk(&host, &mut state, plan);
    assert_unknown(&host, &mut state, ticket);
    let _device = ended(&host, run_of(&host, rt.alloc(), state));
    Ok(())
}
