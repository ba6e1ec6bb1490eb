//! Sessions that take no commands.

use crate::limits::sessions::replied;
use crate::service::frames::{
    FOUND, FOUND_HEAD, INSERTED, LIST, LIST_NO_TYPE, LISTED_HEAD, LOOKUP, PURGE, REGISTER,
    REGISTER_NONE, REMOVE, assert_replied,
};
use crate::service::stores::{assert_opens_to, new_store};
use crate::service::tasks::{Talk, talked};
use hub_claims::{HubName, Patient};
use path_hub::{Hub, Senders};
use sector_dev::Device;
use session_limits::Limits;
use std::alloc::Global;
use std::process::Abort;
use std::sync::Wait;
use std::time::Clock;
use test_support::digits::REMOVE_NO_TYPE;

/// The refusal of a command.
const NOT_TAKEN: &str = "00000002ff64";

/// A registration that cannot be read.
const UNREADABLE: &str = "0000000301ffff";

/// A purge up to the last moment there is.
const PURGE_ALL: &str = "0000000903ffffffffffffffff";

/// What the session is sent that takes no commands.
const FRAMES: [&str; 10] = [
    REGISTER,
    UNREADABLE,
    REGISTER_NONE,
    PURGE_ALL,
    PURGE,
    LOOKUP,
    REMOVE,
    REMOVE_NO_TYPE,
    LIST,
    LIST_NO_TYPE,
];

/// A session that takes commands, and then one that takes none.
#[derive(Drop)]
struct Sessions {
    alloc: Global,
}

impl Sessions {
    /// Adds what both sessions are replied. The result says whether they end well.
    fn reply<D: Device, N: HubName, R: Wait + Clock + Abort>(
        &self,
        hub: &Hub<D, N, R>,
        senders: &Senders<N>,
        all: &mut Vec<u8>,
    ) -> bool {
        let taking = Limits {
            future: None,
            rooms: None,
            commands: true,
        };
        let limits = (taking, 0);
        let registered = replied(hub, senders, self.alloc, limits, Patient, &[REGISTER], all);
        let looking = Limits {
            future: Some(0),
            rooms: None,
            commands: false,
        };
        let limits = (looking, 0);
        let looked_up = replied(hub, senders, self.alloc, limits, Patient, &FRAMES, all);
        registered && looked_up
    }
}

impl Talk for Sessions {
    fn talk<D: Device, N: HubName, R: Wait + Clock + Abort>(
        &self,
        hub: &Hub<D, N, R>,
        senders: &Senders<N>,
    ) -> Option<Vec<u8>> {
        let mut all = Vec::new(self.alloc);
        let is_well = self.reply(hub, senders, &mut all);
        is_well.then_some(all)
    }
}

// Each command of the second session is refused, one that cannot be read by the code for that, and
// none is in the store.
#[test]
fn only_lookups_and_lists(rt: HostRuntime) {
    let alloc = rt.alloc();
    let (device, written) = talked(&rt, alloc, new_store(&rt, alloc), Sessions { alloc });
    let segment = FOUND.strip_prefix(FOUND_HEAD).unwrap_or("");
    let replies = [
        INSERTED,
        NOT_TAKEN,
        "00000002ff11",
        NOT_TAKEN,
        NOT_TAKEN,
        NOT_TAKEN,
        FOUND,
        NOT_TAKEN,
        "00000002ff29",
        LISTED_HEAD,
        segment,
        "00000002ff29",
    ];
    assert_replied(&rt, alloc, written, &replies);
    assert_opens_to(&rt, alloc, device, 1, 1);
}
