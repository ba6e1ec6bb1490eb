//! Times that lie in the future. `SEGMENT` was made at 1,700,000,000, which is moment
//! 3,400,000,000. A bound of ten seconds is one of 20 half seconds.

use crate::checks::{assert_same, assert_true};
use crate::limits::sessions::replied;
use crate::service::clocks::Counts;
use crate::service::frames::{
    FOUND, INSERTED, LOOKUP, NONE_FOUND, PURGE, REGISTER, REMOVE, assert_replied,
};
use crate::service::stores::{assert_opens_to, cores, new_store};
use crate::service::tasks::{Talk, talked};
use hub_claims::{HubName, Patient};
use path_hub::{Hub, Senders};
use path_session::{Acknowledges, Code, HubService, Service};
use sector_dev::Device;
use seg_check::TrustAll;
use seg_lookup::Roster;
use session_limits::{Limited, Limits};
use std::alloc::Global;
use std::process::Abort;
use std::sync::Wait;
use std::thread::Threads;
use std::time::Clock;
use test_support::ID;
use test_support::digits::{ENTRIES, REGISTER_2096, REMOVE_NO_TYPE, SEGMENT_FIELD};

/// The moment at which `SEGMENT` was made.
const MADE: u64 = 3_400_000_000;

/// The bound of the tests, in seconds.
const BOUND: u64 = 10;

/// The refusal of a time in the future.
const IN_THE_FUTURE: &str = "00000002ff33";

/// One session of these frames, by a bound and the moment before the first one of its clock.
#[derive(Drop)]
struct Session<'a> {
    alloc: Global,
    bound: Option<u64>,
    moment: u64,
    frames: &'a [&'a str],
}

impl Talk for Session<'_> {
    fn talk<D: Device, N: HubName, R: Wait + Clock + Abort>(
        &self,
        hub: &Hub<D, N, R>,
        senders: &Senders<N>,
    ) -> Option<Vec<u8>> {
        let limits = Limits {
            future: self.bound,
            rooms: None,
            commands: true,
        };
        let times = (limits, self.moment);
        let mut replies = Vec::new(self.alloc);
        let is_well = replied(
            hub,
            senders,
            self.alloc,
            times,
            Patient,
            self.frames,
            &mut replies,
        );
        is_well.then_some(replies)
    }
}

/// Sees what a session is replied, and how many rows and which place its device opens to.
fn assert_session<R: Wait + Clock + Threads + Abort + Copy + Drop + Send + Sync>(
    rt: R,
    session: Session<'_>,
    replies: &[&str],
    (rows, place): (usize, u64),
) {
    let alloc = session.alloc;
    let (device, written) = talked(rt, alloc, new_store(&rt, alloc), session);
    assert_replied(&rt, alloc, written, replies);
    assert_opens_to(&rt, alloc, device, rows, place);
}

// The clock gives a moment for each registration that can be read and for each purge. The first
// registration comes 21 half seconds before the segment is made. The second one is at the bound,
// and has the first place.
#[test]
fn registration_at_the_bound_and_past_it(rt: HostRuntime) {
    let frames = [REGISTER, LOOKUP, REGISTER, LOOKUP];
    let session = Session {
        alloc: rt.alloc(),
        bound: Some(BOUND),
        moment: MADE - 22,
        frames: &frames,
    };
    let replies = [IN_THE_FUTURE, NONE_FOUND, INSERTED, FOUND];
    assert_session(&rt, session, &replies, (1, 1));
}

/// A purge of what expires up to 21 half seconds after `MADE`.
const PURGE_21: &str = "000000090300000000caa7e215";

// The purges come at `MADE` and half a second later.
#[test]
fn purge_at_the_bound_and_past_it(rt: HostRuntime) {
    let frames = [PURGE_21, PURGE_21];
    let session = Session {
        alloc: rt.alloc(),
        bound: Some(BOUND),
        moment: MADE - 1,
        frames: &frames,
    };
    let replies = [
        IN_THE_FUTURE,
        "0000001983000000000000000000000000000000000000000000000000",
    ];
    assert_session(&rt, session, &replies, (0, 1));
}

/// A purge up to the last moment there is.
const PURGE_ALL: &str = "0000000903ffffffffffffffff";

// The commands are sent ahead, and each refusal has its turn. A purge of the future would have
// dropped the row.
#[test]
fn refused_commands_are_not_handed_in(rt: HostRuntime) {
    let frames = [
        REGISTER,
        PURGE_ALL,
        REGISTER_2096,
        PURGE,
        LOOKUP,
        REMOVE,
        PURGE_ALL,
    ];
    let session = Session {
        alloc: rt.alloc(),
        bound: Some(BOUND),
        moment: MADE,
        frames: &frames,
    };
    let replies = [
        INSERTED,
        IN_THE_FUTURE,
        IN_THE_FUTURE,
        "0000001983000000000000000100000000000000000000000000000000",
        FOUND,
        "0000001984000000000000000200000000000000000000000000000001",
        IN_THE_FUTURE,
    ];
    assert_session(&rt, session, &replies, (0, 3));
}

// A registration that cannot be read is refused as without a bound, and so is a removal of no type.
// The clock is not asked for them: the registration that follows comes at the bound.
#[test]
fn other_refusals_are_as_without_a_bound(rt: HostRuntime) {
    let frames = ["0000000301ffff", REMOVE_NO_TYPE, "0000000302ffff", REGISTER];
    let session = Session {
        alloc: rt.alloc(),
        bound: Some(BOUND),
        moment: MADE - 21,
        frames: &frames,
    };
    let replies = ["00000002ff11", "00000002ff29", "00000002ff11", INSERTED];
    assert_session(&rt, session, &replies, (1, 1));
}

#[test]
fn no_bound_refuses_nothing(rt: HostRuntime) {
    let frames = [REGISTER_2096, PURGE_ALL];
    let session = Session {
        alloc: rt.alloc(),
        bound: None,
        moment: 0,
        frames: &frames,
    };
    let replies = [
        INSERTED,
        "0000001983000000000000000100000000000000000000000000000001",
    ];
    assert_session(&rt, session, &replies, (0, 2));
}

// The greatest bound, of 2^64 - 1 seconds, is as none: no moment comes after it.
#[test]
fn the_greatest_bound_refuses_nothing(rt: HostRuntime) {
    let frames = [REGISTER_2096, PURGE_ALL];
    let session = Session {
        alloc: rt.alloc(),
        bound: Some(u64::MAX),
        moment: MADE,
        frames: &frames,
    };
    let replies = [
        INSERTED,
        "0000001983000000000000000100000000000000000000000000000001",
    ];
    assert_session(&rt, session, &replies, (0, 2));
}

/// A registration of `SEGMENT` and of the same segment made in 2096: its head, and the field of the
/// second one up to the entries.
const BOTH: [&str; 2] = ["000000bd010ab901080212b401", "0a580a080880d0acf30e1007"];

// One segment of two lies in the future, so neither is registered.
#[test]
fn one_segment_of_two_is_enough(rt: HostRuntime) {
    let [head, field] = BOTH;
    let frames = [head, SEGMENT_FIELD, field, ENTRIES, LOOKUP];
    let session = Session {
        alloc: rt.alloc(),
        bound: Some(BOUND),
        moment: MADE,
        frames: &frames,
    };
    assert_session(&rt, session, &[IN_THE_FUTURE, NONE_FOUND], (0, 0));
}

/// How many bytes of a frame come before its body: the length and the kind.
const HEAD: usize = 5;

/// A frame's body.
fn body_of(frame: &[u8]) -> &[u8] {
    frame.split_at(HEAD.min(frame.len())).1
}

/// The code of that refusal.
const FUTURE: u8 = 0x33;

/// Answers messages one by one, by the methods for each kind.
#[derive(Drop)]
struct OneByOne {
    alloc: Global,
}

/// The place of a command that was answered, or the code of its refusal.
fn place_or_code(answered: Result<impl Acknowledges + Drop, Code>) -> Result<u64, u8> {
    match answered {
        Ok(ack) => Ok(ack.says().place),
        Err(code) => Err(code.0),
    }
}

/// Sees what messages are answered one by one, of which the first registration and the first purge
/// come before the bound.
fn assert_one_by_one<S: Service>(
    rt: &impl Abort,
    alloc: Global,
    limited: &mut S,
    (segment, ends): (&[u8], &[u8]),
) {
    let answers = [
        place_or_code(limited.register(alloc, segment)),
        place_or_code(limited.purge(MADE + 1)),
        place_or_code(limited.purge(MADE + 1)),
        place_or_code(limited.register(alloc, segment)),
        place_or_code(limited.remove(2, &ID)),
    ];
    let wanted = [Err(FUTURE), Err(FUTURE), Ok(0), Ok(1), Ok(2)];
    assert_same(rt, &answers, &wanted, &"answers");
    let found = limited.lookup(alloc, ends).map(|found| found.1.len());
    assert_true(rt, matches!(found, Ok(0)), "the lookup finds nothing");
}

/// Has a session answer messages one by one.
fn talk_one_by_one<D: Device, N: HubName, R: Wait + Clock + Abort>(
    hub: &Hub<D, N, R>,
    senders: &Senders<N>,
    alloc: Global,
    cores: &Roster,
) -> Option<()> {
    let rt = hub.handle();
    let reader = hub.reader().ok()?;
    let clock = Counts::after(0);
    let sender = senders.begin();
    let service = HubService::new(hub, reader, &TrustAll, clock, cores, Patient, sender);
    let limits = Limits {
        future: Some(BOUND),
        rooms: None,
        commands: true,
    };
    let mut limited = Limited::new(service, Counts::after(MADE - 22), limits, rt);
    let (register, lookup) = (test_support::REGISTER, test_support::LOOKUP);
    let bodies = (body_of(&register), body_of(&lookup));
    assert_one_by_one(rt, alloc, &mut limited, bodies);
    hub.give_back(limited.into_service().into_reader());
    Some(())
}

impl Talk for OneByOne {
    fn talk<D: Device, N: HubName, R: Wait + Clock + Abort>(
        &self,
        hub: &Hub<D, N, R>,
        senders: &Senders<N>,
    ) -> Option<Vec<u8>> {
        let roster = cores(hub.handle(), self.alloc);
        talk_one_by_one(hub, senders, self.alloc, &roster)?;
        Some(Vec::new(self.alloc))
    }
}

#[test]
fn messages_one_by_one(rt: HostRuntime) {
    let alloc = rt.alloc();
    let (device, written) = talked(&rt, alloc, new_store(&rt, alloc), OneByOne { alloc });
    assert_true(&rt, written.is_some(), "there is a reader");
    assert_opens_to(&rt, alloc, device, 0, 3);
}
