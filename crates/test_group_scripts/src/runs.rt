//! Runs: the beginning of one, its events, and its end.

use crate::work::state_of;
use group_recovery::{Event, Reply, Run, run};
use sector_dev::Device;
use std::alloc::Global;
use store_open::Store;
use test_support::TestHost;

/// A run of a state of home 1, of a store.
pub fn begun<D: Device>(rt: &impl TestHost, alloc: Global, store: Store<D>) -> Run<D> {
    match Run::new(alloc, state_of(rt, alloc, store, 1)) {
        Ok(run) => run,
        Err(_state) => rt.fail("a value is out"),
    }
}

/// Does events, and once more where memory is refused for their replies.
pub fn done<D: Device>(
    rt: &impl TestHost,
    alloc: Global,
    held: Run<D>,
    events: &[Event],
) -> (Run<D>, Vec<Reply>) {
    let again = match ran(alloc, held, events) {
        Err(held) => ran(alloc, held, events),
        answer => answer,
    };
    match again {
        Ok(done) => done,
        Err(_held) => rt.fail("out of memory"),
    }
}

/// Does events, unless memory is refused for their replies.
fn ran<D: Device>(
    alloc: Global,
    held: Run<D>,
    events: &[Event],
) -> Result<(Run<D>, Vec<Reply>), Run<D>> {
    match run(alloc, held, events) {
        Ok(done) => Ok(done),
        Err((held, _refused)) => Err(held),
    }
}

/// The device of a run that has ended.
pub fn ended<D: Device>(rt: &impl TestHost, held: Run<D>) -> D {
    let again = match held.wind_up() {
        Err(held) => held.wind_up(),
        answer => answer,
    };
    match again {
        Ok(device) => device,
        Err(_held) => rt.fail("something is kept"),
    }
}
