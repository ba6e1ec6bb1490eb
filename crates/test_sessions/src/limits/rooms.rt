//! Room for sessions with commands under way.

use crate::checks::{assert_same, assert_true};
use crate::service::clocks::Counts;
use crate::service::stores::{assert_opens_to, cores, new_store};
use crate::service::tasks::{Talk, talked};
use hub_claims::{HubName, Patient};
use path_hub::{Hub, Senders};
use path_session::{Acknowledges, Code, HubService, Message, Service};
use sector_dev::Device;
use seg_check::TrustAll;
use seg_lookup::Roster;
use session_limits::{Limited, Limits, Rooms};
use std::alloc::Global;
use std::process::Abort;
use std::sync::Wait;
use std::time::Clock;

/// How many bytes of a frame come before its body: the length and the kind.
const HEAD: usize = 5;

/// The refusal of a command for which there is no room, which is that of a busy store.
const BUSY: u8 = 0x51;

/// The place of a command that was answered, or the code of its refusal.
fn place_or_code(answered: Result<impl Acknowledges + Drop, Code>) -> Result<u64, u8> {
    match answered {
        Ok(ack) => Ok(ack.says().place),
        Err(code) => Err(code.0),
    }
}

/// A frame's body.
fn body_of(frame: &[u8]) -> &[u8] {
    frame.split_at(HEAD.min(frame.len())).1
}

/// The bodies of a registration and of the lookup of its segment.
#[derive(Clone, Copy)]
struct Bodies<'a> {
    segment: &'a [u8],
    ends: &'a [u8],
}

/// Hands a command in, which is taken.
fn handed_in<S: Service>(
    rt: &impl Abort,
    alloc: Global,
    service: &mut S,
    message: Message<&[u8]>,
) -> S::UnderWay {
    match service.hand_in(alloc, message) {
        Some(under_way) => under_way,
        None => panic!(rt; "a command is not taken"),
    }
}

/// Sees what is answered to a command that was handed in.
fn assert_settled<S: Service>(
    rt: &impl Abort,
    service: &mut S,
    under_way: S::UnderWay,
    wanted: Result<u64, u8>,
    case: &str,
) {
    let answered = service.settle(under_way);
    assert_same(rt, &place_or_code(answered), &wanted, &case);
}

/// Sees what is answered to a purge up to this moment.
fn assert_purged(
    rt: &impl Abort,
    service: &mut impl Service,
    moment: u64,
    wanted: Result<u64, u8>,
    case: &str,
) {
    let answered = service.purge(moment);
    assert_same(rt, &place_or_code(answered), &wanted, &case);
}

/// How many segments a lookup finds.
fn found(rt: &impl Abort, alloc: Global, service: &mut impl Service, bodies: Bodies<'_>) -> usize {
    match service.lookup(alloc, bodies.ends) {
        Ok((_kind, found)) => found.len(),
        Err(code) => panic!(rt; "{}", code.0),
    }
}

/// Hands a registration and a purge in, for which a session takes one room.
fn hand_in_both<S: Service>(
    rt: &impl Abort,
    alloc: Global,
    one: &mut S,
    rooms: &Rooms,
    bodies: Bodies<'_>,
) -> (S::UnderWay, S::UnderWay) {
    let register = handed_in(rt, alloc, one, Message::Register(bodies.segment));
    let purge = handed_in(rt, alloc, one, Message::Purge(0));
    assert_same(rt, &rooms.taken(), &1, &"rooms of two commands");
    (register, purge)
}

/// Has a session ask for room that gets none, also when it asks again. Its lookup is answered.
fn assert_no_room<S: Service>(rt: &impl Abort, alloc: Global, other: &mut S, bodies: Bodies<'_>) {
    let busy = Err(BUSY);
    let purge = handed_in(rt, alloc, other, Message::Purge(u64::MAX));
    assert_settled(rt, other, purge, busy, "handed in");
    assert_purged(rt, other, u64::MAX, busy, "asked again");
    let _early = found(rt, alloc, other, bodies);
}

/// Has the one session hand commands in, and the other one ask for room meanwhile.
fn share<S: Service, O: Service>(
    rt: &impl Abort,
    alloc: Global,
    (one, other): (&mut S, &mut O),
    rooms: &Rooms,
    bodies: Bodies<'_>,
) {
    let (register, purge) = hand_in_both(rt, alloc, one, rooms, bodies);
    assert_no_room(rt, alloc, other, bodies);
    // The room is given back with the answer to the last command.
    assert_settled(rt, one, register, Ok(0), "registered");
    assert_same(rt, &rooms.taken(), &1, &"rooms of one command");
    assert_purged(rt, other, u64::MAX, Err(BUSY), "asked between");
    assert_settled(rt, one, purge, Ok(1), "purged");
    assert_same(rt, &rooms.taken(), &0, &"rooms of no command");
}

/// Sees that no refused purge was handed in: the next place is 2, and the row is there.
fn assert_none_purged(
    rt: &impl Abort,
    alloc: Global,
    other: &mut impl Service,
    rooms: &Rooms,
    bodies: Bodies<'_>,
) {
    assert_purged(rt, other, 0, Ok(2), "the other's purge");
    assert_same(rt, &rooms.taken(), &0, &"rooms after it");
    assert_same(rt, &found(rt, alloc, other, bodies), &1, &"found");
}

/// Hands a command in that a session ends with.
fn leave_under_way<S: Service>(rt: &impl Abort, alloc: Global, one: &mut S, rooms: &Rooms) {
    let _left = handed_in(rt, alloc, one, Message::Purge(0));
    assert_same(rt, &rooms.taken(), &1, &"rooms of a command under way");
}

/// Has two sessions share rooms. A session that ends with a command under way gives its room back.
fn share_rooms<D: Device, N: HubName, R: Wait + Clock + Abort>(
    hub: &Hub<D, N, R>,
    senders: &Senders<N>,
    alloc: Global,
    rooms: &Rooms,
    cores: &Roster,
) -> Option<()> {
    let rt = hub.handle();
    let reader = hub.reader().ok()?;
    let another = hub.reader().ok()?;
    let limits = Limits {
        future: None,
        rooms: Some(rooms),
        commands: true,
    };
    let (frame, lookup) = (test_support::REGISTER, test_support::LOOKUP);
    let bodies = Bodies {
        segment: body_of(&frame),
        ends: body_of(&lookup),
    };
    let clock = Counts::after(0);
    let sender = senders.begin();
    let service = HubService::new(hub, reader, &TrustAll, clock, cores, Patient, sender);
    let mut one = Limited::new(service, Counts::after(0), limits, rt);
    let clock = Counts::after(0);
    let sender = senders.begin();
    let service = HubService::new(hub, another, &TrustAll, clock, cores, Patient, sender);
    let mut other = Limited::new(service, Counts::after(0), limits, rt);
    share(rt, alloc, (&mut one, &mut other), rooms, bodies);
    assert_none_purged(rt, alloc, &mut other, rooms, bodies);
    leave_under_way(rt, alloc, &mut one, rooms);
    hub.give_back(one.into_service().into_reader());
    assert_same(rt, &rooms.taken(), &0, &"rooms after a session");
    assert_purged(rt, &mut other, 0, Ok(4), "the last purge");
    hub.give_back(other.into_service().into_reader());
    Some(())
}

/// Two sessions, of which one at a time has room for its commands.
#[derive(Drop)]
struct Two {
    alloc: Global,
}

impl Talk for Two {
    fn talk<D: Device, N: HubName, R: Wait + Clock + Abort>(
        &self,
        hub: &Hub<D, N, R>,
        senders: &Senders<N>,
    ) -> Option<Vec<u8>> {
        let roster = cores(hub.handle(), self.alloc);
        let rooms = Rooms::new(1);
        share_rooms(hub, senders, self.alloc, &rooms, &roster)?;
        Some(Vec::new(self.alloc))
    }
}

#[test]
fn room_for_one_session(rt: HostRuntime) {
    let alloc = rt.alloc();
    let (device, written) = talked(&rt, alloc, new_store(&rt, alloc), Two { alloc });
    assert_true(&rt, written.is_some(), "there are two readers");
    assert_opens_to(&rt, alloc, device, 1, 5);
}
