//! Peers that arrive at a server.

use crate::reports::{Report, Reports};
use crate::server::Server;
use crate::task::Seat;
use paced_stream::AcceptedStream;
use server_front::{Arrival, Listener, NoSeat, Peer, Role, turn_away};
use std::net::SocketAddr;
use std::sync::{Arc, Wait};
use std::time::Clock;

impl<L: Listener + Drop, O: Reports> Server<'_, L, O> {
    /// The seat of the next peer for whom there is one. Peers without one are turned away. The
    /// result is `None` where the server is to end, or a listener of sessions broke.
    pub(crate) fn next_seated<R: Wait + Clock>(&self, rt: &R) -> Option<Seat> {
        for _ in rt.forever() {
            let (role, arrival) = self.door.next_arrival(
                rt,
                || !self.reports.wants_end(),
                |error, pause| self.report_failure(rt, error, pause),
            );
            match arrival {
                Arrival::Peer(stream, address) => {
                    if let Some(seat) = self.seat(rt, role, stream, address) {
                        return Some(seat);
                    }
                }
                Arrival::Over => return None,
                Arrival::Broken => {
                    self.set_broken();
                    return None;
                }
            }
        }
        unreachable!()
    }

    /// Gives a peer a seat of a role's sessions, and returns it, or turns the peer away.
    fn seat<R: Wait + Clock>(
        &self,
        rt: &R,
        role: Role,
        stream: AcceptedStream,
        address: SocketAddr,
    ) -> Option<Seat> {
        let stream = match Arc::new(self.alloc, stream) {
            Ok(stream) => stream,
            Err(refused) => {
                turn_away(&refused.value);
                self.report_refusal(rt, role, NoSeat::NoMemory);
                return None;
            }
        };
        let peer = Peer { stream, address };
        match self.seats_of(role).take(rt, &peer) {
            Ok(number) => Some(Seat { role, number }),
            Err(refusal) => {
                turn_away(&peer.stream);
                self.report_refusal(rt, role, refusal);
                None
            }
        }
    }

    /// Turns the peer of a seat away, for whom no thread was given.
    pub(crate) fn miss_session<R: Wait + Clock>(&self, rt: &R, seat: Seat) {
        let seats = self.seats_of(seat.role);
        if let Some(peer) = seats.peer(rt, seat.number) {
            turn_away(&peer.stream);
        }
        seats.leave(rt, seat.number);
        self.door.discount();
        self.report_refusal(rt, seat.role, NoSeat::NoMemory);
    }

    /// Counts a peer that was turned away, and reports such peers if a report is due.
    fn report_refusal<R: Wait + Clock>(&self, rt: &R, role: Role, refusal: NoSeat) {
        match (refusal, role) {
            (NoSeat::Full, Role::All) => {
                if let Some(count) = self.turned_away.count(rt) {
                    self.reports.report(Report::TurnedAway(count));
                }
            }
            (NoSeat::Full, Role::Lookups) => {
                if let Some(count) = self.lookups_turned_away.count(rt) {
                    self.reports.report(Report::LookupsTurnedAway(count));
                }
            }
            (NoSeat::AddressFull, _) => {
                if let Some(count) = self.address_full.count(rt) {
                    self.reports.report(Report::AddressFull(count));
                }
            }
            (NoSeat::NoMemory, _) => {
                if let Some(count) = self.no_thread.count(rt) {
                    self.reports.report(Report::NoThread(count));
                }
            }
        }
    }

    /// Counts an accept that failed, and reports it if a report is due.
    fn report_failure<R: Wait + Clock>(&self, rt: &R, error: i32, pause: u64) {
        if self.not_accepted.count(rt).is_some() {
            self.reports.report(Report::NotAccepted { error, pause });
        }
    }
}
