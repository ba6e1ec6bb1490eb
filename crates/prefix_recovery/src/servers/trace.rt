//! The trace of a server.

ghost use Rattle.std.specs.Prelude.{◌≡◌};
ghost use Rattle.sector_dev.specs.Disk.{IsHonest};
ghost use Rattle.sector_dev.specs.Stretch.{Stretch};
ghost use Rattle.group_core.specs.Starting.{value_of_store};
ghost use Rattle.logged_state.specs.Left.{OpensToFrontOf};
ghost use Rattle.logged_state.specs.Kept.{AllClaimsKept, AllShownKept};
ghost use Rattle.prefix_recovery.specs.servers.Serving.{IsServed};

use logged_state::Left;
use sector_dev::Device;
use std::marker::Model;
use std::snapshot::Snapshot;
use store_open::Store;

/// A server at its end: the store that it was started with, its log with the claims of acknowledged
/// commands and with what sessions were shown, and its device. Only clauses read the store and the
/// device, which have no bytes here.
#[derive(Drop)]
pub struct ServerTrace<D: Device> {
    start: Snapshot<Store<D>>,
    left: Left,
    end: Snapshot<D>,
}

impl<D: Device> Model for ServerTrace<D> {
    ghost use Rattle.prefix_recovery.specs.servers.Survival.{ServerView};
    ghost use Rattle.prefix_recovery.specs.servers.Serving.{IsServed};

    ghost Value = { ServerView };

    ghost view = { λ t. record { start = t.start.value; left = t.left; end = D.disk t.end.value } };

    ghost invariant = { λ t. IsServed t.start.value t.left (D.disk t.end.value) };
}

impl<D: Device> ServerTrace<D> {
    /// The trace of a server that has ended, with its device as it is now.
    pub fn of(start: Snapshot<Store<D>>, left: Left, device: &D) -> ServerTrace<D>
        requires moments { Stretch start.value.disk (D.disk device.now) (OpensToFrontOf (value_of_store start.value) left.log.commands 0) }
        requires since { IsHonest start.value.disk
            → AllClaimsKept (value_of_store start.value) left.log (D.disk device.now).history left.acknowledged }
        requires looked { IsHonest start.value.disk
            → AllShownKept (value_of_store start.value) left.log (D.disk device.now).history left.looked }
        ensures { result ≡ record { start = start.value; left = left; end = D.disk device.now } }
    {
        ServerTrace {
            start,
            left,
            end: Snapshot::of(device),
        }
    }

    /// The log with the claims and with what sessions were shown.
    pub fn into_left(self) -> Left
        ensures { result ≡ self.left }
    {
        let ServerTrace {
            start: _start,
            left,
            end: _end,
        } = self;
        left
    }

    /// Does nothing: what a stop leaves at each moment of the server.
    pub(crate) fn serves(&self)
        ensures { IsServed self.now.start self.now.left self.now.end }
    {
        let _ = &self.left;
    }
}
