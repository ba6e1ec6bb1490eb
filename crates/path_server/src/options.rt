//! How a server runs.

use isd_as::IsdAs;
use seg_check::{Keyed, TrustAll, Verifier};
use seg_lookup::Roster;
use session_core::Kinds;
use std::time::Duration;

/// How a server runs.
#[derive(Drop)]
pub struct Options {
    /// The core ASes.
    pub cores: Roster,
    /// The key by which signatures are checked. Without a key, all signatures are trusted.
    pub key: Option<Keyed>,
    /// Which kinds of messages sessions have.
    pub kinds: Kinds,
    /// The number of sessions to start, or 0 for no limit.
    pub sessions: u64,
    /// The most sessions at one time with peers of one IP address, or 0 for no limit.
    pub peer_sessions: u64,
    /// How long a session waits for its peer, or `None` for no limit: for the first byte of a
    /// frame, for the rest of the frame, and until the peer has taken a reply. It is also how long
    /// commits are awaited for a peer that has sent more than is read ahead.
    pub idle: Option<Duration>,
    /// How long commits are awaited for a peer that has ended its side of the connection, or `None`
    /// for no limit. A peer that has closed its connection cannot be distinguished from it.
    pub leave: Option<Duration>,
    /// The seconds by which the timestamp of a segment that is registered, and the moment of a
    /// purge, may lie after now, or `None` for no bound.
    pub future: Option<u64>,
    /// The number of seats that sessions with commands under way leave to others, or 0 where they
    /// may have all seats.
    pub spare: u64,
    /// The number of the 64 seats that are for the sessions of the listener of lookups, where there
    /// is one. At most `MOST_LOOKUP_SEATS` are.
    pub lookup_seats: u64,
    /// The time from one purge that the server makes by itself to the next, or `None` where it
    /// makes none. None is of a moment after that of the machine's clock, and none is made where
    /// that is more than a minute from the one that is expected of it. A purge of many rows is
    /// several, by rising moments, and the next one comes sooner then.
    pub purge: Option<Duration>,
    /// The number of seconds for which such purges keep rows past their expiry.
    pub purge_grace: u64,
    /// How long the sessions that are open may go on once the server is to end.
    pub grace: Duration,
}

/// Signatures are checked by the key. Without a key, all are good.
impl Verifier for Options {
    ghost use Rattle.path_server.specs.Verifying.{verdicts_of};

    ghost verifies = { λ options. verdicts_of options.key };

    fn verify(&self, ia: IsdAs, signed: &[u8], signature: &[u8], associated: &[&[u8]]) -> bool {
        match &self.key {
            Some(key) => key.verify(ia, signed, signature, associated),
            None => TrustAll.verify(ia, signed, signature, associated),
        }
    }
}
