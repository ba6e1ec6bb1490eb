//! Sessions over a hub whose messages have limits.

use crate::service::clocks::Counts;
use crate::service::frames::joined;
use crate::service::stores::cores;
use crate::service::tasks::served;
use hub_claims::{HubName, Waiter};
use path_hub::{Hub, Senders};
use path_session::HubService;
use sector_dev::Device;
use seg_check::TrustAll;
use session_limits::{Limited, Limits};
use std::alloc::Global;
use std::process::Abort;
use std::sync::Wait;
use std::time::Clock;

/// Adds the replies that a peer is sent in a session of these frames, which come at once. The
/// result says whether the session ends well. The clock of the limits gives first the moment after
/// this one; that of the service begins at moment 1.
pub(crate) fn replied<D: Device, N: HubName, R: Wait + Clock + Abort, P: Waiter + Drop>(
    hub: &Hub<D, N, R>,
    senders: &Senders<N>,
    alloc: Global,
    (limits, moment): (Limits<'_>, u64),
    peer: P,
    frames: &[&str],
    replies: &mut Vec<u8>,
) -> bool {
    let rt = hub.handle();
    let Ok(reader) = hub.reader() else {
        return false;
    };
    let roster = cores(rt, alloc);
    let frames = joined(rt, alloc, frames);
    let clock = Counts::after(0);
    let sender = senders.begin();
    let service = HubService::new(hub, reader, &TrustAll, clock, &roster, peer, sender);
    let mut limited = Limited::new(service, Counts::after(moment), limits, rt);
    let mut input = frames.as_slice();
    let ended = served(alloc, &mut limited, &mut input, replies);
    hub.give_back(limited.into_service().into_reader());
    ended.is_ok()
}
