//! How often a service asks its clock.

use crate::service::clocks::Counts;
use crate::service::frames::{
    FOUND, FOUND_HEAD, INSERTED, LIST, LIST_NO_TYPE, LISTED_HEAD, LOOKUP, NONE_FOUND, NONE_LISTED,
    PURGE, REGISTER, assert_replied, joined,
};
use crate::service::stores::{cores, new_store};
use crate::service::tasks::{Talk, session, talked};
use hub_claims::HubName;
use path_hub::{Hub, Senders};
use sector_dev::Device;
use std::alloc::Global;
use std::process::Abort;
use std::sync::Wait;
use std::time::Clock;
use test_support::EXPIRY;

/// A session whose segment expires between two lookups. The clock gives a moment for the
/// registration, for each lookup and for each list, and none for a purge, a removal, a registration
/// that cannot be read, a lookup that cannot be read or asks for nothing, or a list of no type.
const FRAMES: [&str; 11] = [
    REGISTER,
    PURGE,
    "0000000301ffff",
    "0000000302ffff",
    "0000000102",
    "0000002204040000000000000000000000000000000000000000000000000000000000000000",
    LIST_NO_TYPE,
    LOOKUP,
    LIST,
    LOOKUP,
    LIST,
];

/// That session.
#[derive(Drop)]
struct Expires {
    alloc: Global,
}

impl Talk for Expires {
    fn talk<D: Device, N: HubName, R: Wait + Clock + Abort>(
        &self,
        hub: &Hub<D, N, R>,
        senders: &Senders<N>,
    ) -> Option<Vec<u8>> {
        let rt = hub.handle();
        let roster = cores(rt, self.alloc);
        let frames = joined(rt, self.alloc, &FRAMES);
        let mut replies = Vec::new(self.alloc);
        // The second lookup has the fourth moment.
        let clock = Counts::after(EXPIRY - 4);
        let is_well = session(
            hub,
            senders,
            self.alloc,
            &roster,
            clock,
            &mut frames.as_slice(),
            &mut replies,
        );
        is_well.then_some(replies)
    }
}

#[test]
fn row_expires_between_lookups(rt: HostRuntime) {
    let alloc = rt.alloc();
    let (_device, written) = talked(&rt, alloc, new_store(&rt, alloc), Expires { alloc });
    let segment = FOUND.strip_prefix(FOUND_HEAD).unwrap_or("");
    let replies = [
        INSERTED,
        "0000001983000000000000000100000000000000000000000000000000",
        "00000002ff11",
        "00000002ff11",
        "00000002ff41",
        "00000002ff29",
        "00000002ff29",
        FOUND,
        LISTED_HEAD,
        segment,
        NONE_FOUND,
        NONE_LISTED,
    ];
    assert_replied(&rt, alloc, written, &replies);
}
