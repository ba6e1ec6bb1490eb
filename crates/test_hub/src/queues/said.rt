//! Commands that are handed in, and what they are answered.

use crate::checks::assert_true;
use group_core::SubmitError;
use hub_claims::{HubClaim, HubError, HubName};
use path_db::{Command, Outcome};
use path_hub::{Hub, Senders};
use sector_dev::Device;
use std::alloc::Global;
use std::process::Abort;
use std::sync::Wait;
use std::time::Clock;

/// What a command is answered.
#[derive(Clone, Copy, Debug, PartialEq, Eq)]
pub(crate) enum Said {
    /// It is committed at this place.
    Committed(u64),
    /// The state stopped before the command of this place was committed.
    Stopped(u64),
    /// It was not accepted.
    Refused(SubmitError),
    /// None of these.
    Other,
}

/// What a refusal says.
fn answer_of(refusal: HubError) -> Said {
    match refusal {
        HubError::Stopped(place) => Said::Stopped(place),
        HubError::Submit(why) => Said::Refused(why),
        HubError::NoMemory | HubError::NoReader | HubError::NotAwaited => Said::Other,
    }
}

/// A command that was handed in: a claim, or what it was answered at once.
pub(crate) type Handed<N> = Result<HubClaim<N>, Said>;

/// Hands a command in.
pub(crate) fn hand_in<D: Device, N: HubName, R: Wait + Clock>(
    hub: &Hub<D, N, R>,
    senders: &Senders<N>,
    command: Command,
) -> Handed<N> {
    hub.hand_in(&mut senders.begin(), command)
        .map_err(answer_of)
}

/// Adds a command that was handed in to those before it.
pub(crate) fn push<N: HubName>(rt: &impl Abort, all: &mut Vec<Handed<N>>, handed: Handed<N>) {
    assert_true(rt, all.push(handed).is_ok(), "there is room for a command");
}

/// Hands this number of purges in, one after the other, after those that were handed in before.
pub(crate) fn hand_in_purges<D: Device, N: HubName, R: Wait + Clock + Abort>(
    hub: &Hub<D, N, R>,
    senders: &Senders<N>,
    all: &mut Vec<Handed<N>>,
    count: u64,
) {
    for _ in 0..count {
        let handed = hand_in(hub, senders, Command::Purge(0));
        push(hub.handle(), all, handed);
    }
}

/// Waits for the answer to a command that was handed in: what it is, and what the command did.
pub(crate) fn settle<D: Device, N: HubName, R: Wait + Clock>(
    hub: &Hub<D, N, R>,
    handed: Handed<N>,
) -> (Said, Option<Outcome>) {
    match handed {
        Err(said) => (said, None),
        Ok(claim) => match hub.settle(claim) {
            Ok(receipt) => (Said::Committed(receipt.place()), Some(receipt.outcome())),
            Err(refusal) => (answer_of(refusal), None),
        },
    }
}

/// Room for this number of commands.
pub(crate) fn room<N: HubName>(rt: &impl Abort, alloc: Global, count: u64) -> Vec<Handed<N>> {
    let made = match Vec::with_capacity(alloc, count as usize) {
        Err(_) => Vec::with_capacity(alloc, count as usize),
        made => made,
    };
    match made {
        Ok(room) => room,
        Err(_) => panic!(rt; "out of memory"),
    }
}
