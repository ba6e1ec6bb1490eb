//! Want of memory. The tests are run with each of their allocations refused in turn: a message that
//! is refused for it changes nothing, and is answered when it comes again; lookups show no less
//! after it than before; and a session goes on after it.

use crate::checks::{assert_same, assert_true};
use crate::service::clocks::Counts;
use crate::service::frames::{FOUND, LOOKUP, joined};
use crate::service::stores::{assert_opens_to, cores, new_store};
use crate::service::tasks::{Talk, served, talked};
use hub_claims::{HubName, Patient};
use path_hub::{Hub, Senders};
use path_session::{Ack, Acknowledges, Code, FrameError, HubService, Outcome, Service};
use sector_dev::Device;
use seg_check::TrustAll;
use seg_lookup::Roster;
use std::alloc::Global;
use std::process::Abort;
use std::sync::Wait;
use std::time::Clock;
use test_support::ID;

/// How many bytes of a frame come before its body: the length and the kind.
const HEAD: usize = 5;

/// The number of the type of down segments.
const DOWN: u8 = 2;

/// What a command does that changes no rows.
const NOTHING: Outcome = Outcome {
    inserted: 0,
    updated: 0,
    kept: 0,
    purged: 0,
};

/// A command of a session.
#[derive(Clone, Copy, Debug)]
enum Act {
    Register,
    Purge,
    Remove,
}

/// A command, and what comes of it.
#[derive(Clone, Copy)]
struct Answered {
    /// The command.
    act: Act,
    /// What it does.
    outcome: Outcome,
    /// How many segments the lookup finds after it.
    after: usize,
}

/// The commands in their order.
#[rattlefmt::skip]
const ACTS: [Answered; 4] = [
    Answered { act: Act::Register, outcome: Outcome { inserted: 1, ..NOTHING }, after: 1 },
    Answered { act: Act::Register, outcome: Outcome { kept: 1, ..NOTHING }, after: 1 },
    Answered { act: Act::Purge, outcome: NOTHING, after: 1 },
    Answered { act: Act::Remove, outcome: Outcome { purged: 1, ..NOTHING }, after: 0 },
];

/// The bodies of a registration and of the lookup of its segment.
#[derive(Clone, Copy)]
struct Bodies<'a> {
    segment: &'a [u8],
    ends: &'a [u8],
}

/// A frame's body.
fn body_of(frame: &[u8]) -> &[u8] {
    frame.split_at(HEAD.min(frame.len())).1
}

/// What a command is answered.
fn answer<S: Service>(
    alloc: Global,
    service: &mut S,
    bodies: Bodies<'_>,
    act: Act,
) -> Result<S::Ack, Code> {
    match act {
        Act::Register => service.register(alloc, bodies.segment),
        Act::Purge => service.purge(0),
        Act::Remove => service.remove(DOWN, &ID),
    }
}

/// How many segments the lookup finds. It is made once more where memory is refused.
fn found(rt: &impl Abort, alloc: Global, service: &mut impl Service, bodies: Bodies<'_>) -> usize {
    let answer = match service.lookup(alloc, bodies.ends) {
        Err(Code(0x01)) => service.lookup(alloc, bodies.ends),
        answer => answer,
    };
    match answer {
        Ok((_kind, found)) => found.len(),
        Err(code) => panic!(rt; "{}", code.0),
    }
}

/// Sees how many segments the lookup finds.
fn assert_found(
    rt: &impl Abort,
    alloc: Global,
    service: &mut impl Service,
    bodies: Bodies<'_>,
    wanted: usize,
) {
    let count = found(rt, alloc, service, bodies);
    assert_same(rt, &count, &wanted, &"found");
}

/// What a command is answered, which is made once more where memory is refused. The lookup finds as
/// many segments in between as before.
fn answer_again(
    rt: &impl Abort,
    alloc: Global,
    service: &mut impl Service,
    bodies: Bodies<'_>,
    (act, before): (Act, usize),
) -> Ack {
    let answer = match answer(alloc, service, bodies, act) {
        Err(Code(0x01)) => {
            assert_found(rt, alloc, service, bodies, before);
            answer(alloc, service, bodies, act)
        }
        answer => answer,
    };
    match answer {
        Ok(ack) => ack.says(),
        Err(code) => panic!(rt; "{}", code.0),
    }
}

/// Sees the place of a command and what it did.
fn assert_ack(rt: &impl Abort, ack: Ack, wanted: (u64, Outcome)) {
    assert_same(rt, &(ack.place, ack.outcome), &wanted, &"acknowledged");
}

/// Makes the calls of a service: the commands, and the lookup before them and after each.
fn call(rt: &impl Abort, alloc: Global, service: &mut impl Service, bodies: Bodies<'_>) {
    let mut before = 0;
    assert_found(rt, alloc, service, bodies, before);
    for (place, row) in ACTS.iter().enumerate() {
        let ack = answer_again(rt, alloc, service, bodies, (row.act, before));
        assert_ack(rt, ack, (place as u64, row.outcome));
        assert_found(rt, alloc, service, bodies, row.after);
        before = row.after;
    }
}

/// Makes those calls.
#[derive(Drop)]
struct Again {
    alloc: Global,
}

impl Again {
    /// Makes the calls of a service.
    fn call<D: Device, N: HubName, R: Wait + Clock + Abort>(
        &self,
        hub: &Hub<D, N, R>,
        senders: &Senders<N>,
        cores: &Roster,
    ) -> Option<()> {
        let reader = hub.reader().ok()?;
        let clock = Counts::after(0);
        let sender = senders.begin();
        let mut service = HubService::new(hub, reader, &TrustAll, clock, cores, Patient, sender);
        let (segment, ends) = (test_support::REGISTER, test_support::LOOKUP);
        let bodies = Bodies {
            segment: body_of(&segment),
            ends: body_of(&ends),
        };
        call(hub.handle(), self.alloc, &mut service, bodies);
        hub.give_back(service.into_reader());
        Some(())
    }
}

impl Talk for Again {
    fn talk<D: Device, N: HubName, R: Wait + Clock + Abort>(
        &self,
        hub: &Hub<D, N, R>,
        senders: &Senders<N>,
    ) -> Option<Vec<u8>> {
        let roster = cores(hub.handle(), self.alloc);
        self.call(hub, senders, &roster)?;
        Some(Vec::new(self.alloc))
    }
}

#[test]
fn refused_messages_may_come_again(rt: HostRuntime) {
    let alloc = rt.alloc();
    let (device, replies) = talked(&rt, alloc, new_store(&rt, alloc), Again { alloc });
    assert_true(&rt, replies.is_some(), "there is a reader");
    assert_opens_to(&rt, alloc, device, 0, 4);
}

/// The refusal for want of memory.
const NO_MEMORY: &str = "00000002ff01";

/// How many lookups a session has.
const LOOKUPS: usize = 4;

/// The replies to the lookups of a session of which the one of this number is refused, if there is
/// one.
fn replies_but(rt: &impl Abort, alloc: Global, refused: usize) -> Vec<u8> {
    let mut replies = [FOUND; LOOKUPS];
    if let Some(reply) = replies.get_mut(refused) {
        *reply = NO_MEMORY;
    }
    joined(rt, alloc, &replies)
}

/// Whether these are the replies to the lookups of which the one of this number is refused, if
/// there is one.
fn is_replied_but(rt: &impl Abort, alloc: Global, refused: usize, written: &[u8]) -> bool {
    replies_but(rt, alloc, refused).as_slice() == written
}

/// Whether this is a front of the replies to all lookups.
fn is_front(rt: &impl Abort, alloc: Global, written: &[u8]) -> bool {
    let whole = replies_but(rt, alloc, LOOKUPS);
    whole.as_slice().starts_with(written)
}

/// Sees that a session of the lookups was replied rightly: all of them, all but one that was
/// refused, or a front of them where it ended for want of memory. Whether it was all of them.
fn is_whole(
    rt: &impl Abort,
    alloc: Global,
    ended: Result<u64, FrameError>,
    written: &[u8],
) -> bool {
    if ended == Err(FrameError::NoMemory) {
        let is_front = is_front(rt, alloc, written);
        assert_true(rt, is_front, "a front of the replies is written");
        return false;
    }
    assert_same(rt, &ended, &Ok(LOOKUPS as u64), &"replies");
    if is_replied_but(rt, alloc, LOOKUPS, written) {
        return true;
    }
    let refused = (0..LOOKUPS).any(|number| is_replied_but(rt, alloc, number, written));
    assert_true(rt, refused, "one lookup is refused");
    false
}

/// Registers the segment, and looks it up in two sessions, of which one is refused no memory.
#[derive(Drop)]
struct Sessions {
    alloc: Global,
}

impl Sessions {
    /// Registers the segment, once more where memory is refused.
    fn register<D: Device, N: HubName, R: Wait + Clock + Abort>(
        &self,
        hub: &Hub<D, N, R>,
        senders: &Senders<N>,
        cores: &Roster,
    ) -> Option<()> {
        let rt = hub.handle();
        let reader = hub.reader().ok()?;
        let clock = Counts::after(0);
        let sender = senders.begin();
        let mut service = HubService::new(hub, reader, &TrustAll, clock, cores, Patient, sender);
        let (segment, ends) = (test_support::REGISTER, test_support::LOOKUP);
        let bodies = Bodies {
            segment: body_of(&segment),
            ends: body_of(&ends),
        };
        let ack = answer_again(rt, self.alloc, &mut service, bodies, (Act::Register, 0));
        assert_same(rt, &ack.place, &0, &"place");
        hub.give_back(service.into_reader());
        Some(())
    }

    /// What a session of the lookups ends with. Adds what it writes.
    fn look_up<D: Device, N: HubName, R: Wait + Clock + Abort>(
        &self,
        hub: &Hub<D, N, R>,
        senders: &Senders<N>,
        cores: &Roster,
        written: &mut Vec<u8>,
    ) -> Option<Result<u64, FrameError>> {
        let reader = hub.reader().ok()?;
        let frames = joined(hub.handle(), self.alloc, &[LOOKUP; LOOKUPS]);
        let clock = Counts::after(0);
        let sender = senders.begin();
        let mut service = HubService::new(hub, reader, &TrustAll, clock, cores, Patient, sender);
        let mut input = frames.as_slice();
        let ended = served(self.alloc, &mut service, &mut input, written);
        hub.give_back(service.into_reader());
        Some(ended)
    }

    /// Whether a session of the lookups was replied to all of them.
    fn is_whole<D: Device, N: HubName, R: Wait + Clock + Abort>(
        &self,
        hub: &Hub<D, N, R>,
        senders: &Senders<N>,
        cores: &Roster,
    ) -> Option<bool> {
        let rt = hub.handle();
        // There is room for the replies.
        let mut written = replies_but(rt, self.alloc, LOOKUPS);
        written.clear();
        let ended = self.look_up(hub, senders, cores, &mut written)?;
        Some(is_whole(rt, self.alloc, ended, &written))
    }
}

impl Talk for Sessions {
    fn talk<D: Device, N: HubName, R: Wait + Clock + Abort>(
        &self,
        hub: &Hub<D, N, R>,
        senders: &Senders<N>,
    ) -> Option<Vec<u8>> {
        let rt = hub.handle();
        let roster = cores(rt, self.alloc);
        self.register(hub, senders, &roster)?;
        let first = self.is_whole(hub, senders, &roster)?;
        let second = self.is_whole(hub, senders, &roster)?;
        assert_true(rt, first || second, "one of two sessions is whole");
        Some(Vec::new(self.alloc))
    }
}

#[test]
fn sessions_go_on_after_refused_lookups(rt: HostRuntime) {
    let alloc = rt.alloc();
    let (device, replies) = talked(&rt, alloc, new_store(&rt, alloc), Sessions { alloc });
    assert_true(&rt, replies.is_some(), "there is a reader");
    assert_opens_to(&rt, alloc, device, 1, 1);
}
