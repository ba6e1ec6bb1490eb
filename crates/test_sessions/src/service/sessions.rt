//! Sessions over a hub whose actors run.

use crate::service::clocks::Counts;
use crate::service::frames::{
    FOUND, INSERTED, LOOKUP, NONE_FOUND, PURGE, REGISTER, REGISTER_NONE, REMOVE, assert_replied,
    joined,
};
use crate::service::stores::{assert_opens_to, cores, new_store};
use crate::service::tasks::{TURNS, Talk, session, talked};
use hub_claims::{HubName, Patient};
use path_hub::{Hub, Senders};
use path_session::{HubService, Replies, Service, serve};
use sector_dev::Device;
use seg_check::TrustAll;
use seg_lookup::Roster;
use session_core::Kinds;
use std::alloc::Global;
use std::io;
use std::io::Read;
use std::process::Abort;
use std::sync::Wait;
use std::thread::Threads;
use std::time::Clock;

/// Gives its bytes in two pieces.
#[derive(Drop)]
struct Cut<'a> {
    first: &'a [u8],
    rest: &'a [u8],
}

impl Read for Cut<'_> {
    fn read(&mut self, buf: &mut [u8]) -> io::Result<usize> {
        if self.first.is_empty() {
            self.rest.read(buf)
        } else {
            self.first.read(buf)
        }
    }
}

/// One session, whose input is cut once.
#[derive(Drop)]
pub(crate) struct Frames {
    pub(crate) alloc: Global,
    pub(crate) frames: Vec<u8>,
    pub(crate) cut: usize,
}

impl Talk for Frames {
    fn talk<D: Device, N: HubName, R: Wait + Clock + Abort>(
        &self,
        hub: &Hub<D, N, R>,
        senders: &Senders<N>,
    ) -> Option<Vec<u8>> {
        let roster = cores(hub.handle(), self.alloc);
        let frames = self.frames.as_slice();
        let (first, rest) = frames.split_at(self.cut.min(frames.len()));
        let mut input = Cut { first, rest };
        let mut replies = Vec::new(self.alloc);
        let is_well = session(
            hub,
            senders,
            self.alloc,
            &roster,
            Counts::after(0),
            &mut input,
            &mut replies,
        );
        is_well.then_some(replies)
    }
}

/// Sees what a session over a new store is replied, and how many rows and which place its device
/// opens to.
fn assert_session<R: Wait + Clock + Threads + Abort + Copy + Drop + Send + Sync>(
    rt: R,
    alloc: Global,
    frames: &[&str],
    cut: usize,
    replies: &[&str],
    rows: usize,
    place: u64,
) {
    let frames = joined(&rt, alloc, frames);
    let talk = Frames { alloc, frames, cut };
    let (device, written) = talked(rt, alloc, new_store(&rt, alloc), talk);
    assert_replied(&rt, alloc, written, replies);
    assert_opens_to(&rt, alloc, device, rows, place);
}

#[test]
fn register_then_lookup(rt: HostRuntime) {
    let alloc = rt.alloc();
    // The frames have 101 and 21 bytes.
    for cut in 0..=122 {
        assert_session(
            &rt,
            alloc,
            &[REGISTER, LOOKUP],
            cut,
            &[INSERTED, FOUND],
            1,
            1,
        );
    }
}

#[test]
fn empty_request_and_registration(rt: HostRuntime) {
    let replies = [
        "00000002ff41",
        "0000001981000000000000000000000000000000000000000000000000",
        NONE_FOUND,
    ];
    let frames = ["0000000102", REGISTER_NONE, LOOKUP];
    assert_session(&rt, rt.alloc(), &frames, 0, &replies, 0, 1);
}

#[test]
fn three_equal_purges(rt: HostRuntime) {
    let replies = [
        "0000001983000000000000000000000000000000000000000000000000",
        "0000001983000000000000000100000000000000000000000000000000",
        "0000001983000000000000000200000000000000000000000000000000",
    ];
    assert_session(&rt, rt.alloc(), &[PURGE, PURGE, PURGE], 0, &replies, 0, 3);
}

// A registration with more segments than a command may have cannot be read, so the hub's refusal of
// such a command is never replied.
#[test]
fn seventeen_segments(rt: HostRuntime) {
    let (_head, segment) = REGISTER.split_at(22);
    let mut frames = [segment; 18];
    // The lengths of the frame, of the entry of a type, and of its segments.
    frames[0] = "00000603010aff0b080212fa0b";
    assert_session(&rt, rt.alloc(), &frames, 0, &["00000002ff2a"], 0, 0);
}

/// Serves a session of one frame. The result says whether it was replied to.
fn served<S: Service>(alloc: Global, frame: &[u8], replies: &mut Vec<u8>, service: &mut S) -> bool {
    let mut input = frame;
    let mut replies = Replies::of(replies);
    serve(alloc, &mut input, &mut replies, service, Kinds::Base, TURNS) == Ok(1)
}

/// Serves a registration by the one service, a lookup and a removal by the other, and a lookup by
/// the first one. The result says whether all were replied to.
fn serve_both<S: Service, O: Service>(
    alloc: Global,
    (one, other): (&mut S, &mut O),
    remove: &[u8],
    replies: &mut Vec<u8>,
) -> bool {
    let registered = served(alloc, &test_support::REGISTER, replies, one);
    let found = served(alloc, &test_support::LOOKUP, replies, other);
    let removed = served(alloc, remove, replies, other);
    let looked_up = served(alloc, &test_support::LOOKUP, replies, one);
    registered && found && removed && looked_up
}

/// Two services at once: what the one has committed, the other finds.
#[derive(Drop)]
struct Pair {
    alloc: Global,
}

impl Pair {
    /// Adds what both services reply. The result says whether they replied to all.
    fn reply<D: Device, N: HubName, R: Wait + Clock + Abort>(
        &self,
        hub: &Hub<D, N, R>,
        senders: &Senders<N>,
        (cores, remove): (&Roster, &[u8]),
        replies: &mut Vec<u8>,
    ) -> Option<bool> {
        let reader = hub.reader().ok()?;
        let another = hub.reader().ok()?;
        let clock = Counts::after(0);
        let sender = senders.begin();
        let mut one = HubService::new(hub, reader, &TrustAll, clock, cores, Patient, sender);
        let clock = Counts::after(0);
        let sender = senders.begin();
        let mut other = HubService::new(hub, another, &TrustAll, clock, cores, Patient, sender);
        let is_well = serve_both(self.alloc, (&mut one, &mut other), remove, replies);
        hub.give_back(one.into_reader());
        hub.give_back(other.into_reader());
        Some(is_well)
    }
}

impl Talk for Pair {
    fn talk<D: Device, N: HubName, R: Wait + Clock + Abort>(
        &self,
        hub: &Hub<D, N, R>,
        senders: &Senders<N>,
    ) -> Option<Vec<u8>> {
        let rt = hub.handle();
        let roster = cores(rt, self.alloc);
        let remove = joined(rt, self.alloc, &[REMOVE]);
        let mut replies = Vec::new(self.alloc);
        let is_well = self.reply(hub, senders, (&roster, &remove), &mut replies);
        (is_well == Some(true)).then_some(replies)
    }
}

#[test]
fn learnt_receipt_is_shown(rt: HostRuntime) {
    let alloc = rt.alloc();
    let (device, written) = talked(&rt, alloc, new_store(&rt, alloc), Pair { alloc });
    let replies = [
        INSERTED,
        FOUND,
        "0000001984000000000000000100000000000000000000000000000001",
        NONE_FOUND,
    ];
    assert_replied(&rt, alloc, written, &replies);
    assert_opens_to(&rt, alloc, device, 0, 2);
}
