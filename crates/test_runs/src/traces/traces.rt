//! A traced run over a new store in memory.

use crate::host::Host;
use group_recovery::{Event, Reply, Run};
use path_db::Command;
use prefix_recovery::{Trace, Traced, reopen_after, run_traced};
use sector_dev::MemDevice;
use std::alloc::Global;
use std::process::Abort;
use std::test::Fail;
use store_open::{OpenError, Store};
use test_group_scripts::runs::begun;
use test_group_scripts::stores::{SECTORS, new_store, opened};
use test_support::{TestHost, assert_same, assert_true};

/// A device of zeros.
fn blank(rt: &Host<impl Abort>, alloc: Global) -> MemDevice {
    match MemDevice::new(alloc, SECTORS) {
        Ok(device) => device,
        Err(_) => rt.fail("out of memory"),
    }
}

/// A run over a new store, after these events, with its trace.
fn traced(rt: &Host<impl Abort>, alloc: Global, events: &[Event]) -> Traced<MemDevice> {
    let held = begun(rt, alloc, opened(rt, alloc, new_store(rt, alloc)));
    match run_traced(alloc, held, events) {
        Ok(traced) => traced,
        Err(_refused) => rt.fail("out of memory"),
    }
}

/// The device of a run that is wound up.
fn wound_up(rt: &Host<impl Abort>, held: Run<MemDevice>) -> MemDevice {
    match held.wind_up() {
        Ok(device) => device,
        Err(_held) => rt.fail("nothing is kept"),
    }
}

/// Two commands that are committed, of which the second one is redeemed, and a third one.
fn ten_events() -> [Event; 10] {
    [
        Event::Submit(Command::Purge(7)),
        Event::Submit(Command::Purge(8)),
        Event::Stage,
        Event::WriteGroup,
        Event::SyncGroup,
        Event::OpenGate,
        Event::SyncGate,
        Event::Publish,
        Event::Redeem(1),
        Event::Submit(Command::Purge(9)),
    ]
}

/// Sees that each of these events is answered, and what the redeeming is answered.
fn assert_replies(rt: &Host<impl Abort>, replies: &[Reply]) {
    assert_same(rt, &replies.len(), &10, &"replies");
    let is_committed = matches!(replies.get(8), Some(Reply::Committed(1, _)));
    assert_true(rt, is_committed, "the second command is committed");
}

/// The device of a store that was opened at place 2.
fn device_at_two(
    rt: &Host<impl Abort>,
    answer: Result<Store<MemDevice>, (MemDevice, OpenError)>,
) -> MemDevice {
    match answer {
        Ok(store) => {
            assert_same(rt, &store.place(), &2, &"a place");
            store.into_device()
        }
        Err(_back) => rt.fail("a store opens"),
    }
}

/// Opens a device after a trace, to place 2: the trace with this opening, and the device.
fn reopened(
    rt: &Host<impl Abort>,
    alloc: Global,
    trace: &Trace,
    device: MemDevice,
) -> (Trace, MemDevice) {
    let (answer, trace) = reopen_after(alloc, trace, device);
    (trace, device_at_two(rt, answer))
}

/// Sees that a device that is no store is refused.
fn assert_refused(rt: &Host<impl Abort>, alloc: Global, trace: &Trace) {
    let (answer, _trace) = reopen_after(alloc, trace, blank(rt, alloc));
    match answer {
        Ok(_store) => rt.fail("no store opens"),
        Err((_device, refused)) => {
            assert_same(rt, &refused, &OpenError::NotAStore, &"no store");
        }
    }
}

/// Opens the device of a run after its trace, then once more, and then a device that is no store.
fn assert_reopened(rt: &Host<impl Abort>, alloc: Global, trace: &Trace, held: Run<MemDevice>) {
    let (trace, device) = reopened(rt, alloc, trace, wound_up(rt, held));
    let (trace, _device) = reopened(rt, alloc, &trace, device);
    assert_refused(rt, alloc, &trace);
}

#[test]
fn what_was_acknowledged_is_opened(rt: HostRuntime) -> Result<(), Fail> {
    let host = Host(&rt);
    let Traced {
        run,
        replies,
        trace,
    } = traced(&host, rt.alloc(), &ten_events());
    assert_replies(&host, &replies);
    assert_reopened(&host, rt.alloc(), &trace, run);
    Ok(())
}
