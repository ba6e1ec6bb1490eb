//! Want of memory in a session that sends ahead. The test is run with each of its allocations
//! refused in turn: a command that is refused for it is replied so in its turn, and takes no place.

use crate::ahead::crowds::{Sessions, crowded, served};
use crate::ahead::frames::purged;
use crate::bytes::push;
use crate::checks::{assert_same, assert_true};
use crate::host::Host;
use crate::service::frames::{PURGE, joined};
use hub_claims::HubName;
use path_hub::{Hub, Senders};
use path_session::FrameError;
use sector_dev::Device;
use std::alloc::Global;
use std::process::Abort;
use std::sync::Wait;
use std::sync::atomic::{AtomicU64, Ordering};
use std::time::Clock;
use test_hub_scripts::stores::{Contents, assert_opens_to, new_store};

/// How many purges a session sends.
const PURGES: u8 = 40;

/// The refusal for want of memory.
const NO_MEMORY: [u8; 6] = [0, 0, 0, 2, 0xff, 1];

/// The replies to the purges, from this place on, the one of this number being refused, if there is
/// one.
fn replies_but(rt: &impl Abort, alloc: Global, first: u8, refused: u8) -> Vec<u8> {
    let mut replies = Vec::new(alloc);
    let mut place = first;
    for number in 0..PURGES {
        if number == refused {
            push(rt, &mut replies, &NO_MEMORY);
        } else {
            push(rt, &mut replies, &purged(place));
            place = place.wrapping_add(1);
        }
    }
    replies
}

/// How many purges have places after a session that ended so and wrote this, from the first place
/// on: all of them, all but one that was refused, or none of a session that ended before.
fn placed(
    rt: &impl Abort,
    alloc: Global,
    first: u8,
    ended: Result<u64, FrameError>,
    written: &[u8],
) -> u8 {
    if ended == Err(FrameError::NoMemory) {
        assert_true(rt, written.is_empty(), "nothing is written");
        return 0;
    }
    assert_same(rt, &ended, &Ok(u64::from(PURGES)), &"replies");
    for refused in 0..=PURGES {
        if replies_but(rt, alloc, first, refused).as_slice() == written {
            return if refused == PURGES {
                PURGES
            } else {
                PURGES - 1
            };
        }
    }
    panic!(rt; "no such replies")
}

/// Two sessions of purges, of which one is refused no memory.
#[derive(Drop)]
struct Purges {
    alloc: Global,
    placed: AtomicU64,
}

impl Purges {
    /// Serves a session of purges: how many have places, from the first place on.
    fn serve<D: Device, N: HubName, R: Wait + Clock + Abort>(
        &self,
        hub: &Hub<D, N, R>,
        senders: &Senders<N>,
        first: u8,
    ) -> u8 {
        let rt = hub.handle();
        let frames = joined(rt, self.alloc, &[PURGE; PURGES as usize]);
        // There is room for the replies.
        let mut written = replies_but(rt, self.alloc, first, PURGES);
        written.clear();
        let ended = served(hub, senders, self.alloc, 0, &frames, &mut written);
        placed(rt, self.alloc, first, ended, &written)
    }
}

impl Sessions for Purges {
    fn run<D: Device, N: HubName, R: Wait + Clock + Abort>(
        &self,
        hub: &Hub<D, N, R>,
        senders: &Senders<N>,
        _session: u64,
    ) {
        let first = self.serve(hub, senders, 0);
        let second = self.serve(hub, senders, first);
        let is_whole = first == PURGES || second == PURGES;
        assert_true(hub.handle(), is_whole, "one of two sessions is whole");
        let both = u64::from(first).saturating_add(u64::from(second));
        self.placed.store(both, Ordering::SeqCst);
    }
}

#[test]
fn refused_commands_in_their_turns(rt: HostRuntime) {
    let host = Host(&rt);
    let alloc = rt.alloc();
    let purges = Purges {
        alloc,
        placed: AtomicU64::new(0),
    };
    let device = crowded(&rt, alloc, new_store(&host, alloc), &purges, 1);
    let places = purges.placed.load(Ordering::SeqCst);
    let _device = assert_opens_to(&host, alloc, device, Contents::empty_at(places));
}
