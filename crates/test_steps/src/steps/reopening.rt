//! Opening the device of a state again.

use crate::host::Host;
use group_core::{PlainShow, State};
use group_recovery::{NotReopened, reopen, reopen_state};
use sector_dev::MemDevice;
use std::alloc::Global;
use std::process::Abort;
use std::test::Fail;
use store_open::{OpenError, Store};
use test_group_scripts::stores::{
    Contents, assert_contents, contents_of, new_store, opened, register,
};
use test_group_scripts::work::{Work, work_of};
use test_support::{TestHost, assert_same};

/// The state of work whose outcomes are still kept comes back.
fn comes_back(rt: &Host<impl Abort>, alloc: Global, work: Work<MemDevice>) -> Work<MemDevice> {
    let Work {
        state,
        tickets,
        group,
        round,
    } = work;
    match reopen_state(alloc, state) {
        Err(NotReopened::InUse(state)) => Work {
            state,
            tickets,
            group,
            round,
        },
        _ => rt.fail("its device was handed out"),
    }
}

/// Opens a device again for which memory was refused.
fn reopened_again(
    rt: &Host<impl Abort>,
    alloc: Global,
    device: MemDevice,
    refused: OpenError,
) -> Store<MemDevice> {
    assert_same(rt, &refused, &OpenError::NoMemory, &"an opening");
    match reopen(alloc, device) {
        Ok(store) => store,
        Err((_device, e)) => rt.fail(format_args!("{e:?}")),
    }
}

/// Opens the device of a state at rest again. Where memory is refused, it is tried once more.
fn reopened(
    rt: &Host<impl Abort>,
    alloc: Global,
    state: State<MemDevice, PlainShow>,
) -> Store<MemDevice> {
    match reopen_state(alloc, state) {
        Ok(store) => store,
        Err(NotReopened::Refused(device, e)) => reopened_again(rt, alloc, device, e),
        Err(NotReopened::InUse(_state)) => rt.fail("an outcome is kept"),
    }
}

#[test]
fn state_at_rest_is_reopened(rt: HostRuntime) -> Result<(), Fail> {
    let host = Host(&rt);
    let alloc = rt.alloc();
    let mut work = work_of(&host, alloc, opened(&host, alloc, new_store(&host, alloc)));
    work.submits(&host, register(&host, alloc, 2, 1), Ok(0));
    let mut work = comes_back(&host, alloc, work).flushes_group(&host);
    work.redeems_all(&host, 1);
    let store = reopened(&host, alloc, work.at_rest(&host));
    let wanted = Contents {
        rows: 1,
        bytes: 93,
        place: 1,
    };
    assert_contents(&host, contents_of(&store), wanted);
    let _device = store.into_device();
    Ok(())
}
