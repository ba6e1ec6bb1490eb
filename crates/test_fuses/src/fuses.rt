//! Runs on a device that stops at each of its calls in turn, and openings of what is left that are
//! stopped again.

use crate::failures::assert_fronts;
use crate::host::Host;
use crate::scripts::{Script, long_script, short_script};
use std::alloc::Global;
use std::process::Abort;
use std::test::Fail;
use test_group_scripts::stores::TEARS;

/// Stops the runs of a script with each tear that lands this number of bytes.
fn assert_stops(rt: &Host<impl Abort>, alloc: Global, script: &Script, keep: usize) {
    for tear in TEARS {
        if tear.keep == keep {
            assert_fronts(rt, alloc, script, &tear);
        }
    }
}

/// The same of the long script from a store of this version.
fn assert_long_stops(
    rt: &Host<impl Abort>,
    alloc: Global,
    version: u8,
    keep: usize,
) -> Result<(), Fail> {
    let script = long_script(rt, alloc, version)?;
    assert_stops(rt, alloc, &script, keep);
    Ok(())
}

/// The same of the short script.
fn assert_short_stops(
    rt: &Host<impl Abort>,
    alloc: Global,
    version: u8,
    keep: usize,
) -> Result<(), Fail> {
    let script = short_script(rt, alloc, version)?;
    assert_stops(rt, alloc, &script, keep);
    Ok(())
}

#[test]
fn short_runs_of_new_stores_stop_before_a_write(rt: HostRuntime) -> Result<(), Fail> {
    let host = Host(&rt);
    assert_short_stops(&host, rt.alloc(), 2, 0)
}

#[test]
fn short_runs_of_new_stores_stop_after_a_byte(rt: HostRuntime) -> Result<(), Fail> {
    let host = Host(&rt);
    assert_short_stops(&host, rt.alloc(), 2, 1)
}

#[test]
fn short_runs_of_new_stores_stop_after_a_sector(rt: HostRuntime) -> Result<(), Fail> {
    let host = Host(&rt);
    assert_short_stops(&host, rt.alloc(), 2, 512)
}

#[test]
fn short_runs_of_old_stores_stop_before_a_write(rt: HostRuntime) -> Result<(), Fail> {
    let host = Host(&rt);
    assert_short_stops(&host, rt.alloc(), 1, 0)
}

#[test]
fn short_runs_of_old_stores_stop_after_a_byte(rt: HostRuntime) -> Result<(), Fail> {
    let host = Host(&rt);
    assert_short_stops(&host, rt.alloc(), 1, 1)
}

#[test]
fn short_runs_of_old_stores_stop_after_a_sector(rt: HostRuntime) -> Result<(), Fail> {
    let host = Host(&rt);
    assert_short_stops(&host, rt.alloc(), 1, 512)
}

#[test]
fn new_stores_stop_before_a_write(rt: HostRuntime) -> Result<(), Fail> {
    let host = Host(&rt);
    assert_long_stops(&host, rt.alloc(), 2, 0)
}

#[test]
fn new_stores_stop_behind_a_byte(rt: HostRuntime) -> Result<(), Fail> {
    let host = Host(&rt);
    assert_long_stops(&host, rt.alloc(), 2, 1)
}

#[test]
fn new_stores_stop_behind_a_sector(rt: HostRuntime) -> Result<(), Fail> {
    let host = Host(&rt);
    assert_long_stops(&host, rt.alloc(), 2, 512)
}

#[test]
fn old_stores_stop_before_a_write(rt: HostRuntime) -> Result<(), Fail> {
    let host = Host(&rt);
    assert_long_stops(&host, rt.alloc(), 1, 0)
}

#[test]
fn old_stores_stop_behind_a_byte(rt: HostRuntime) -> Result<(), Fail> {
    let host = Host(&rt);
    assert_long_stops(&host, rt.alloc(), 1, 1)
}

#[test]
fn old_stores_stop_behind_a_sector(rt: HostRuntime) -> Result<(), Fail> {
    let host = Host(&rt);
    assert_long_stops(&host, rt.alloc(), 1, 512)
}
