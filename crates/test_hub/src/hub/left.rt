//! Receipts, and the log that a hub leaves beside its device.

ghost use Rattle.std.specs.Prelude.{◌≡◌};

use crate::host::Host;
use hub_claims::{HubClaim, HubName};
use path_db::Command;
use path_hub::{Hub, HubJob, Reserved, Senders, UnnamedClaim, with_hub};
use sector_dev::Device;
use std::process::Abort;
use std::sync::Wait;
use std::time::Clock;
use test_hub_scripts::acts::{Unwatched, flush};
use test_hub_scripts::stores::{Contents, assert_opens_to, new_store};

/// Hands two purges in, which one group commits. Comes to the claims of both receipts.
#[derive(Clone, Copy)]
struct Registers;

/// Hands a purge in, which is not refused.
fn handed_in<D: Device, N: HubName, R: Wait + Clock + Abort>(
    hub: &Hub<D, N, R>,
    senders: &Senders<N>,
    until: u64,
) -> HubClaim<N> {
    match hub.hand_in(&mut senders.begin(), Command::Purge(until)) {
        Ok(claim) => claim,
        Err(e) => panic!(hub.handle(); "{e:?}"),
    }
}

/// The claim of the receipt of a command that is committed.
fn settled<D: Device, N: HubName, R: Wait + Clock + Abort>(
    hub: &Hub<D, N, R>,
    claim: HubClaim<N>,
) -> UnnamedClaim
    ensures table { result.table ≡ N.table }
    ensures command { result.claim.command ≡ claim }
{
    match hub.settle(claim) {
        Ok(receipt) => receipt.into_claim().unnamed(),
        Err(e) => panic!(hub.handle(); "{e:?}"),
    }
}

impl<D: Device, R: Wait + Clock + Abort> HubJob<D, R> for Registers {
    ghost use Rattle.std.specs.Prelude.{◌≡◌};

    type Out = (UnnamedClaim, UnnamedClaim);

    ghost does = { λ _ claims table. (claims.0.table ≡ table) × (claims.1.table ≡ table) };

    fn run<N: HubName + Send + Sync>(
        self,
        hub: &Hub<D, N, R>,
        senders: &Senders<N>,
    ) -> (UnnamedClaim, UnnamedClaim) {
        let first = handed_in(hub, senders, 1);
        let second = handed_in(hub, senders, 2);
        flush(&Host(hub.handle()), hub, &mut Unwatched);
        (settled(hub, first), settled(hub, second))
    }
}

#[test]
fn receipts_are_found_in_what_is_left(rt: HostRuntime) {
    let host = Host(&rt);
    let alloc = rt.alloc();
    let (store, release) = Reserved::of(new_store(&host, alloc));
    match with_hub(&rt, alloc, store, 1, Registers) {
        Ok(((first, second), end, left)) => {
            let (mut left, _queued) = left.into_parts();
            left.prove_committed(first);
            left.prove_committed(second);
            let device = end.into_device(release);
            let _device = assert_opens_to(&host, alloc, device, Contents::empty_at(2));
        }
        Err((_store, _job, e)) => panic!(rt; "{e:?}"),
    }
}
