//! What a hub leaves.

ghost use Rattle.std.specs.Prelude.{◌≡◌};

use command_queue::Queued;
use logged_state::Left;
use std::marker::Model;

/// What a hub leaves: the log of its state, with what was handed in of those who acknowledged its
/// commands and looked at what it showed; and all commands that were handed in at its queue.
#[derive(Drop)]
pub struct HubLeft {
    left: Left,
    queued: Queued,
}

impl Model for HubLeft {
    ghost use Rattle.path_hub.specs.HubLeftView.{HubLeftView};

    ghost Value = { HubLeftView };

    ghost view = { λ l. record {
      table = l.left.table;
      log = l.left.log;
      acknowledged = l.left.acknowledged;
      looked = l.left.looked;
      queued = l.queued.history;
      senders = l.queued.senders;
    } };
}

impl HubLeft {
    /// What is left of a state, and of the queue before it.
    pub(crate) fn of(left: Left, queued: Queued) -> HubLeft
        ensures table { result.table ≡ left.table }
        ensures log { result.log ≡ left.log }
        ensures acknowledged { result.acknowledged ≡ left.acknowledged }
        ensures looked { result.looked ≡ left.looked }
        ensures queued { (result.queued ≡ queued.history) × (result.senders ≡ queued.senders) }
    {
        HubLeft { left, queued }
    }

    /// What is left of the state, and of the queue before it.
    pub fn into_parts(self) -> (Left, Queued)
        ensures left { result.0 ≡ record {
          table = self.table;
          log = self.log;
          acknowledged = self.acknowledged;
          looked = self.looked;
        } }
        ensures queued { result.1 ≡ record { history = self.queued; senders = self.senders } }
    {
        let HubLeft { left, queued } = self;
        (left, queued)
    }
}
