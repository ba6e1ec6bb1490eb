//! A hub hands out 64 readers, and has one of its own.

use crate::checks::assert_same;
use crate::host::Host;
use hub_claims::{HubError, HubName};
use hub_readers::HubReader;
use path_hub::{Hub, HubJob, Senders, with_hub};
use sector_dev::Device;
use std::alloc::Global;
use std::sync::Wait;
use std::time::Clock;
use test_hub_scripts::stores::{ended, new_store, reserved};

/// Takes readers out until there is none, and gives one back. Comes to how many there were, whether
/// the hub's own one was there beside them, and whether there is one then.
#[derive(Drop)]
struct TakesAll {
    alloc: Global,
}

/// Takes readers out until there is none.
fn take_all<D: Device, N: HubName, R: Wait + Clock>(
    hub: &Hub<D, N, R>,
    out: &mut Vec<HubReader<N>>,
) -> Option<()> {
    for _ in 0..65 {
        match hub.reader() {
            Ok(reader) => out.push(reader).ok()?,
            Err(HubError::NoReader) => break,
            Err(_) => return None,
        }
    }
    Some(())
}

impl<D: Device, R: Wait + Clock> HubJob<D, R> for TakesAll {
    type Out = Option<(usize, bool, bool)>;

    fn run<N: HubName>(
        self,
        hub: &Hub<D, N, R>,
        _senders: &Senders<N>,
    ) -> Option<(usize, bool, bool)> {
        let mut out = Vec::new(self.alloc);
        take_all(hub, &mut out)?;
        let count = out.len();
        let own = hub.take_own_reader().is_some();
        hub.give_back(out.pop()?);
        Some((count, own, hub.reader().is_ok()))
    }
}

#[test]
fn sixty_four_readers(rt: HostRuntime) {
    let host = Host(&rt);
    let alloc = rt.alloc();
    let store = new_store(&host, alloc);
    let seen = ended(
        &host,
        with_hub(&rt, alloc, reserved(store), 1, TakesAll { alloc }),
    );
    assert_same(&rt, &seen, &Some((64, true, true)), &"readers");
}
