//! Servers whose device holds a sync at a door.

use crate::server::checks::assert_same;
use crate::server::doors::{Door, Holds, Latch};
use crate::server::stores::{LEAST, assert_opens_to, formatted};
use crate::server::worlds::{Clients, Counts, Others, World, serve_beside};
use path_server::{Options, RunError};
use sector_dev::MemDevice;
use std::alloc::Global;
use std::io;
use std::process::Abort;
use std::sync::Wait;
use std::time::Clock;
use test_fault_devices::HeldDevice;

/// A device that holds its syncs at a door.
type Device<'a, R> = HeldDevice<MemDevice, Holds<'a, R>>;

/// A new store on such a device.
fn formatted_at<'a, R: Abort + Wait + Clock + Copy + Drop>(
    rt: R,
    alloc: Global,
    door: &'a Door,
) -> Device<'a, R> {
    HeldDevice::new(formatted(&rt, alloc, LEAST), Holds { rt, door })
}

/// Sees that the door of a device is open, and that the device opens to this number of rows, at
/// this place.
fn assert_left<'a, R: Abort + Wait + Clock + Copy + Drop>(
    rt: R,
    alloc: Global,
    device: Device<'a, R>,
    (rows, place): (usize, u64),
) {
    let (device, gate) = device.into_parts();
    assert_same(&rt, &gate.door.latch(&rt), &Latch::Open, &"latch");
    let _device = assert_opens_to(&rt, alloc, device, rows, place);
}

/// Has clients meet a server of a device that holds its syncs at a door, and sees how it leaves the
/// door and the device: the server's answer, and what the clients saw.
pub(crate) fn serve_held<R: World, C: Clients + Sync>(
    rt: R,
    alloc: Global,
    door: &Door,
    others: Others,
    options: &Options,
    clients: &C,
    left: (usize, u64),
) -> (Result<u64, RunError>, io::Result<C::Seen>) {
    let device = formatted_at(rt, alloc, door);
    let counts = Counts::new();
    let (device, served, seen) = serve_beside(rt, alloc, device, others, options, clients, &counts);
    assert_left(rt, alloc, device, left);
    (served, seen)
}
