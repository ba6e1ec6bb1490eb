//! Groups that follow each other on a device that stops, or fails once, at each of its calls in
//! turn.

use crate::failures::{FailingDevices, assert_fronts};
use crate::faults::Once;
use crate::host::Host;
use crate::rounds::FLUSHER;
use crate::scripts::{followed_script, round_script};
use std::alloc::Global;
use std::process::Abort;
use std::test::Fail;
use test_group_scripts::acts::Act;
use test_group_scripts::stores::TEARS;
use test_group_scripts::values::step_of;

/// Stops the groups of a store of this version with each tear.
fn assert_stops(rt: &Host<impl Abort>, alloc: Global, version: u8) -> Result<(), Fail> {
    let script = followed_script(rt, alloc, version)?;
    for tear in &TEARS {
        assert_fronts(rt, alloc, &script, tear);
    }
    Ok(())
}

/// Whether a round before the event of this number comes between two steps of the flusher that it
/// has not come between yet.
fn is_between(number: usize) -> bool {
    match FLUSHER.get(number) {
        Some((act, _said)) => step_of(*act).is_some() || matches!(act, Act::Put(_)),
        None => true,
    }
}

/// Has a device fail within groups of a store of this version, with a whole round of the
/// checkpointer before the event of this number.
fn assert_round<F: FailingDevices>(
    rt: &Host<impl Abort>,
    alloc: Global,
    version: u8,
    before: usize,
    failure: &F,
) -> Result<(), Fail> {
    let script = round_script(rt, alloc, version, before)?;
    assert_fronts(rt, alloc, &script, failure);
    Ok(())
}

/// The same with a round between any two steps of the flusher.
fn assert_rounds<F: FailingDevices>(
    rt: &Host<impl Abort>,
    alloc: Global,
    version: u8,
    failure: &F,
) -> Result<(), Fail> {
    for before in 0..=FLUSHER.len() {
        if is_between(before) {
            assert_round(rt, alloc, version, before, failure)?;
        }
    }
    Ok(())
}

/// The same for each tear.
fn assert_rounds_stop(rt: &Host<impl Abort>, alloc: Global, version: u8) -> Result<(), Fail> {
    for tear in &TEARS {
        assert_rounds(rt, alloc, version, tear)?;
    }
    Ok(())
}

#[test]
fn followed_groups_of_new_stores_stop(rt: HostRuntime) -> Result<(), Fail> {
    assert_stops(&Host(&rt), rt.alloc(), 2)
}

#[test]
fn followed_groups_of_old_stores_stop(rt: HostRuntime) -> Result<(), Fail> {
    assert_stops(&Host(&rt), rt.alloc(), 1)
}

/// Has a device fail once within the groups of a store of this version.
fn assert_once(rt: &Host<impl Abort>, alloc: Global, version: u8) -> Result<(), Fail> {
    let script = followed_script(rt, alloc, version)?;
    assert_fronts(rt, alloc, &script, &Once);
    Ok(())
}

#[test]
fn followed_groups_fail_once(rt: HostRuntime) -> Result<(), Fail> {
    let host = Host(&rt);
    for version in [1, 2] {
        assert_once(&host, rt.alloc(), version)?;
    }
    Ok(())
}

#[test]
fn rounds_between_followed_groups_of_new_stores_stop(rt: HostRuntime) -> Result<(), Fail> {
    assert_rounds_stop(&Host(&rt), rt.alloc(), 2)
}

#[test]
fn rounds_between_followed_groups_of_old_stores_stop(rt: HostRuntime) -> Result<(), Fail> {
    assert_rounds_stop(&Host(&rt), rt.alloc(), 1)
}

#[test]
fn rounds_between_followed_groups_fail_once(rt: HostRuntime) -> Result<(), Fail> {
    let host = Host(&rt);
    for version in [1, 2] {
        assert_rounds(&host, rt.alloc(), version, &Once)?;
    }
    Ok(())
}
