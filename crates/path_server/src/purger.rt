//! Purges by the trusted moments of a clock, which no session asks for.

ghost use Rattle.std.specs.Prelude.{◌≡◌, ◌⊎◌, ◌-◌, ◌*◌, ◌^◌, min, is_some, None, IfOk, IfErr, OnOk, OnErr, IsOkAnd};
ghost use Rattle.command_queue.specs.Handed.{handed_with};
ghost use Rattle.hub_claims.specs.Committed.{ReceiptShows};
ghost use Rattle.path_server.specs.Trusting.{reading, judged, anchor_after, begun, confirmed, or_else, own_purge, WhyNotHandedIn, WhyNotPurged};

use crate::anchor::{Doubt, Reading};
use hub_claims::{HubClaim, HubError, HubName, Waiter};
use hub_readers::HubReceipt;
use path_db::Command;
use path_hub::{Hub, Sender};
use sector_dev::Device;
use session_clock::Now;
use std::sync::Wait;
use std::time::Clock;

/// Why a purge has no receipt.
#[derive(Clone, Copy, Debug, PartialEq, Eq)]
pub(crate) enum NotPurged {
    /// Nothing was handed in, as the clock is not trusted.
    Rests(Doubt),
    /// The hub refused the purge, or its answer was not awaited.
    Refused(HubError),
}

/// Hands in purges at a hub, each of a moment that is trusted. That is no more after the one that
/// was trusted last than the time since by a steady clock, so that a machine's clock which jumps
/// ahead drops no row. The hub is private to it, and no method hands in anything else.
#[derive(Drop)]
pub(crate) struct Purger<'a, D: Device, N: HubName, R: Wait + Clock, C: Now, S: Now> {
    hub: &'a Hub<D, N, R>,
    /// The machine's clock.
    clock: C,
    /// A clock that no one sets.
    steady: S,
    /// How long rows are kept past their expiry, in half seconds.
    grace: u64,
    /// The reading of both clocks that was trusted last, or `None` where none was yet.
    anchor: Option<Reading>,
    sender: Sender<N>,
}

impl<'a, D: Device, N: HubName, R: Wait + Clock, C: Now, S: Now> Purger<'a, D, N, R, C, S> {
    /// A purger that has handed nothing in and trusts no moment yet. Rows are kept for this number
    /// of seconds past their expiry.
    pub(crate) fn new(
        hub: &'a Hub<D, N, R>,
        clock: C,
        steady: S,
        grace: u64,
        sender: Sender<N>,
    ) -> Purger<'a, D, N, R, C, S>
        ensures clocks { (result.clock ≡ clock) × (result.steady ≡ steady) }
        ensures grace { result.grace ≡ min (grace * 2) (2 ^ 64 - 1) }
        ensures anchor { result.anchor ≡ None }
        ensures sender { result.sender ≡ sender }
    {
        Purger {
            hub,
            clock,
            steady,
            grace: grace.saturating_mul(2),
            anchor: None,
            sender,
        }
    }

    /// Hands in a purge of the trusted moment less the grace, or of this one where that is before
    /// it. Waits until it is committed or refused, or the waiter has left. Then the purge goes on.
    /// Where the clock is not trusted, nothing is handed in.
    #[tactic(auto, using(crate::proofs::Purged::why_not_purged))]
    pub(crate) fn purge<W: Waiter>(
        &mut self,
        most: u64,
        waiter: &mut W,
    ) -> Result<HubReceipt<N>, NotPurged>
        ensures committed { let now = reading (C.moment self.new.clock) (S.moment self.new.steady) in IfOk result (λ receipt.
            IsOkAnd (judged self.old.anchor now) (λ trusted. ReceiptShows N.opening (own_purge most self.old.grace trusted) receipt)) }
        ensures sent { let now = reading (C.moment self.new.clock) (S.moment self.new.steady) in OnOk result
            (IsOkAnd (judged self.old.anchor now) (λ trusted. self.new.sender ≡ handed_with (own_purge most self.old.grace trusted) self.old.sender)) }
        ensures at_most { let now = reading (C.moment self.new.clock) (S.moment self.new.steady) in OnErr result
            (IsOkAnd (judged self.old.anchor now) (λ trusted. self.new.sender ≡ handed_with (own_purge most self.old.grace trusted) self.old.sender)
            ⊎ (self.new.sender ≡ self.old.sender)) }
        ensures why { let now = reading (C.moment self.new.clock) (S.moment self.new.steady) in
            IfErr result (WhyNotPurged (λ trusted. N.refused (own_purge most self.old.grace trusted)) (W.has_left waiter.new) (judged self.old.anchor now)) }
        ensures anchor { let now = reading (C.moment self.new.clock) (S.moment self.new.steady) in
            self.new.anchor ≡ anchor_after self.old.anchor (judged self.old.anchor now) }
        ensures grace { self.new.grace ≡ self.old.grace }
    {
        let claim = self.hand_in(most)?;
        match self.hub.settle_for(claim, waiter) {
            Ok(receipt) => Ok(receipt),
            Err(error) => Err(NotPurged::Refused(error)),
        }
    }

    /// Whether a moment was trusted.
    pub(crate) fn has_begun(&self) -> bool
        ensures { result ≡ is_some self.now.anchor }
    {
        self.anchor.is_some()
    }

    /// The machine's moment less the grace: a purge drops what has expired by then, or by less than
    /// a minute before.
    pub(crate) fn until(&mut self) -> u64
        ensures moment { result ≡ C.moment self.new.clock - self.old.grace }
        ensures same { (self.new.anchor ≡ self.old.anchor) × (self.new.grace ≡ self.old.grace) × (self.new.sender ≡ self.old.sender) }
    {
        self.clock.now().saturating_sub(self.grace)
    }

    /// Trusts the machine's clock where no moment was trusted yet and it is at most a day after the
    /// newest timestamp of the store, in half seconds since 1970.
    pub(crate) fn begin(&mut self, newest: u64)
        ensures anchor { let now = reading (C.moment self.new.clock) (S.moment self.new.steady) in
            self.new.anchor ≡ or_else self.old.anchor (begun newest now) }
        ensures same { (self.new.grace ≡ self.old.grace) × (self.new.sender ≡ self.old.sender) }
    {
        if self.anchor.is_none() {
            self.anchor = self.read().begun(newest);
        }
    }

    /// Trusts the machine's clock where it is within a minute of the moment of a purge that a
    /// session asked for, in half seconds since 1970.
    pub(crate) fn confirm(&mut self, asked: u64)
        ensures anchor { let now = reading (C.moment self.new.clock) (S.moment self.new.steady) in
            self.new.anchor ≡ or_else (confirmed asked now) self.old.anchor }
        ensures same { (self.new.grace ≡ self.old.grace) × (self.new.sender ≡ self.old.sender) }
    {
        if let Some(now) = self.read().confirmed(asked) {
            self.anchor = Some(now);
        }
    }

    /// Ends the purger, and gives its sender back to the hub.
    pub(crate) fn end(self)
    where
        C: Drop,
        S: Drop,
    {
        let Purger {
            hub,
            clock: _clock,
            steady: _steady,
            grace: _,
            anchor: _,
            sender,
        } = self;
        hub.keep_sender(sender.end());
    }

    /// Hands in a purge of the trusted moment less the grace, or of this one where that is before
    /// it, unless the clock is not trusted.
    fn hand_in(&mut self, most: u64) -> Result<HubClaim<N>, NotPurged>
        ensures claim { let now = reading (C.moment self.new.clock) (S.moment self.new.steady) in
            IfOk result (λ claim. IsOkAnd (judged self.old.anchor now) (λ trusted. claim ≡ own_purge most self.old.grace trusted)) }
        ensures sent { let now = reading (C.moment self.new.clock) (S.moment self.new.steady) in OnOk result
            (IsOkAnd (judged self.old.anchor now) (λ trusted. self.new.sender ≡ handed_with (own_purge most self.old.grace trusted) self.old.sender)) }
        ensures why { let now = reading (C.moment self.new.clock) (S.moment self.new.steady) in
            IfErr result (WhyNotHandedIn (λ trusted. N.refused (own_purge most self.old.grace trusted)) (judged self.old.anchor now)) }
        ensures unsent { OnErr result (self.new.sender ≡ self.old.sender) }
        ensures anchor { let now = reading (C.moment self.new.clock) (S.moment self.new.steady) in
            self.new.anchor ≡ anchor_after self.old.anchor (judged self.old.anchor now) }
        ensures grace { self.new.grace ≡ self.old.grace }
    {
        match self.judge() {
            Ok(trusted) => {
                self.anchor = Some(trusted);
                let until = most.min(trusted.moment.saturating_sub(self.grace));
                match self.hub.hand_in(&mut self.sender, Command::Purge(until)) {
                    Ok(claim) => Ok(claim),
                    Err(error) => Err(NotPurged::Refused(error)),
                }
            }
            Err(doubt) => Err(NotPurged::Rests(doubt)),
        }
    }

    /// Reads both clocks, and judges the moment by the one that was trusted last.
    fn judge(&mut self) -> Result<Reading, Doubt>
        ensures judged { result ≡ judged self.old.anchor (reading (C.moment self.new.clock) (S.moment self.new.steady)) }
        ensures same { (self.new.anchor ≡ self.old.anchor) × (self.new.grace ≡ self.old.grace) × (self.new.sender ≡ self.old.sender) }
    {
        let now = self.read();
        match self.anchor {
            Some(anchor) => now.judged_by(anchor),
            None => Err(Doubt::Unknown),
        }
    }

    /// Reads both clocks, the steady one first. Where the thread waits in between, the machine's
    /// moment is after the expected one, which is trusted then. In the other order such a wait
    /// would keep all further moments back.
    fn read(&mut self) -> Reading
        ensures now { result ≡ reading (C.moment self.new.clock) (S.moment self.new.steady) }
        ensures same { (self.new.anchor ≡ self.old.anchor) × (self.new.grace ≡ self.old.grace) × (self.new.sender ≡ self.old.sender) }
    {
        let steady = self.steady.now();
        let moment = self.clock.now();
        Reading { moment, steady }
    }
}
