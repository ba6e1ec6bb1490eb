//! How soon a server purges again.

ghost use Rattle.std.specs.Prelude.{◌≡◌, ◌/◌, ◌≤◌, true, nat_lt, IfSome, IfNone};
ghost use Rattle.std.specs.Duration.{as_nanos};
ghost use Rattle.path_server.specs.Pacing.{most_parts, parts_after};

use std::time::Duration;

/// The most rows that a purge drops where the next one comes after as long a time. A row takes some
/// 15 µs at a million rows, and commands wait for it.
pub(crate) const MANY: u64 = 250;

// The pages say 250, and half of it.
const _: () = prove!(MANY == 250);

/// The time from one purge to the next: a part of a period, which is shorter while purges drop many
/// rows, and a second at least where the period is.
#[derive(Drop)]
pub(crate) struct Pace {
    period: Duration,
    /// The most parts into which the period is cut.
    most: u32,
    /// The parts into which it is cut now.
    parts: u32,
    /// Whether the next purge may drop many rows: it is the first one, or the one before did.
    expects_many: bool,
    ghost seconds: { most ≡ most_parts (as_nanos period) },
    ghost some: { 1 ≤ parts },
    ghost few: { parts ≤ most },
}

impl Pace {
    /// The whole of a period. Its parts are no more than its seconds.
    #[tactic(auto, unfolding(crate::specs::Pacing::most_parts))]
    pub(crate) fn new(period: Duration) -> Pace
        ensures whole { (result.period ≡ period) × (result.parts ≡ 1) × (result.expects_many ≡ true) }
        ensures most { result.most ≡ most_parts (as_nanos period) }
    {
        Pace {
            period,
            most: u32::try_from(period.as_secs()).unwrap_or(u32::MAX).max(1),
            parts: 1,
            expects_many: true,
        }
    }

    /// Whether the next purge may drop many rows: it is the first one, or the one before did.
    pub(crate) fn expects_many(&self) -> bool
        ensures { result ≡ self.now.expects_many }
    {
        self.expects_many
    }

    /// The time until the next purge: a part of the period, and a second at least where it is.
    #[tactic(auto, using(crate::proofs::Paces::second_at_least))]
    pub(crate) fn rest(&self) -> Duration
        ensures part { as_nanos result ≡ as_nanos self.now.period / self.now.parts }
        ensures second { 1_000_000_000 ≤ as_nanos self.now.period → 1_000_000_000 ≤ as_nanos result }
    {
        self.period.checked_div(self.parts).unwrap_or(self.period)
    }

    /// Notes the number of rows that a purge has dropped, or `None` where it was refused, which
    /// changes nothing: what has expired is still to be dropped. After more than 250 rows the rest
    /// is shorter, so that about 250 expire within it. After 125 and fewer it is twice as long, up
    /// to the period.
    #[tactic(auto, unfolding(crate::specs::Pacing::parts_after))]
    pub(crate) fn note(&mut self, dropped: Option<u32>)
        ensures parts { IfSome dropped (λ rows. self.new.parts ≡ parts_after rows self.old.most self.old.parts) }
        ensures expects { IfSome dropped (λ rows. self.new.expects_many ≡ nat_lt MANY rows) }
        ensures same { (self.new.period ≡ self.old.period) × (self.new.most ≡ self.old.most) }
        ensures refused { IfNone dropped (self.new ≡ self.old) }
    {
        let Some(dropped) = dropped else {
            return;
        };
        let (dropped, parts) = (u64::from(dropped), u64::from(self.parts));
        let wanted = if dropped > MANY {
            (parts * (dropped / MANY + 1)).min(u64::from(self.most))
        } else if dropped > MANY / 2 {
            parts
        } else {
            (parts / 2).max(1)
        };
        self.parts = wanted as u32;
        self.expects_many = dropped > MANY;
    }
}
