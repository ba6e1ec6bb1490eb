//! The session of one peer of a server.

ghost use Rattle.std.specs.Prelude.{◌≡◌, false, [], is_some};
ghost use Rattle.server_front.specs.Roles.{takes_commands};
ghost use Rattle.path_server.specs.Attending.{IsHubServed, HandsInCommands, shares_room};
ghost use Rattle.path_server.specs.Verifying.{verdicts_of};

use crate::parting::end_early;
use crate::peer_socket::{Limits, PeerSocket};
use crate::reports::{Report, Reports};
use crate::server::Server;
use crate::task::Seat;
use hub_claims::{HubName, Waiter};
use hub_readers::{HubReader, Look};
use paced_stream::{
    AcceptedStream, Ended, ReadAhead, Sealed, StreamCalls, SystemStream, serve_connection,
};
use path_hub::{EndedSender, Hub, LoggedList, Sender};
use path_session::{HubService, SystemNow};
use sector_dev::Device;
use server_front::{Circumstances, Listener, Role, cause_of, turn_away};
use session_limits::Limited;
use status_server::Counted;
use std::net::SocketAddr;
use std::sync::Wait;
use std::sync::atomic::Ordering;
use std::time::Clock;

/// The most connections that are read and dropped at one time after the end of their sessions.
const MOST_DRAINS: u64 = 64;

impl<L: Listener + Drop, O: Reports> Server<'_, L, O> {
    /// Serves the peer of a seat, hands in the claims of the commands that were acknowledged, what
    /// was shown last and the sender, frees the seat, and closes the connection.
    pub(crate) fn attend_session<D: Device, N: HubName, R: Wait + Clock>(
        &self,
        hub: &Hub<D, N, R>,
        sender: Sender<N>,
        seat: Seat,
    ) {
        let rt = hub.handle();
        let Seat { role, number } = seat;
        let seats = self.seats_of(role);
        let Some(peer) = seats.peer(rt, number) else {
            seats.leave(rt, number);
            return;
        };
        let Ok(reader) = hub.reader() else {
            seats.leave(rt, number);
            turn_away(&peer.stream);
            return;
        };
        let ahead = ReadAhead::new(self.alloc);
        let Some((input, output)) = peer.stream.begin(&ahead) else {
            hub.give_back(reader);
            seats.leave(rt, number);
            return;
        };
        let limits = Limits {
            leave: self.options.leave,
            idle: self.options.idle,
        };
        let waiter = PeerSocket::new(rt, &peer.stream, &ahead, limits);
        let (ended, claims, look, sender) = self.serve(
            hub, reader, sender, role, waiter, input, output,
        );
        hub.keep_acknowledged(claims);
        hub.keep_look(look);
        hub.keep_sender(sender);
        seats.leave(rt, number);
        self.note_end(rt, &peer.stream, peer.address, &ended);
    }

    /// Serves a peer by a reader of the hub, as its role allows, and returns with the end the
    /// claims of all commands that were acknowledged, all commands after which the last lookup or
    /// list was answered, and the sender. By the sender, at most the command of each message is
    /// handed in, once and in their order, and none for a role that takes no commands.
    fn serve<D: Device, N: HubName, R: Wait + Clock, P: Waiter + Drop, T: StreamCalls + Drop>(
        &self,
        hub: &Hub<D, N, R>,
        reader: HubReader<N>,
        sender: Sender<N>,
        role: Role,
        peer: P,
        input: Sealed<T>,
        output: Sealed<T>,
    ) -> (Ended<T>, LoggedList<N>, Look<N>, EndedSender<N>)
        ensures served { IsHubServed self.now.options.now.kinds N.opening N.refused N.shut T.given T.taken T.is_at_end
            self.now.options.now.future (shares_room role (is_some self.now.rooms)) (takes_commands role)
            self.now.options.now.cores (verdicts_of self.now.options.now.key) (P.has_left peer)
            input result.0.input output result.0.output result.0.replies result.1 result.2 }
        ensures nothing { takes_commands role ≡ false → result.1 ≡ [] }
        ensures handed_in { HandsInCommands self.now.options.now.kinds T.given input result.0.input sender result.3.sender }
        ensures unsent { takes_commands role ≡ false → result.3.sender ≡ sender }
    {
        let rt = hub.handle();
        let clock = SystemNow::new(rt);
        let cores = &self.options.cores;
        let service = HubService::new(hub, reader, self.options, clock, cores, peer, sender);
        let limits = self.limits(role);
        let limited = Limited::new(service, SystemNow::new(rt), limits, rt);
        let mut counted = Counted::new(limited, &self.replies, rt);
        let kinds = self.options.kinds;
        let idle = self.options.idle;
        let ended = serve_connection(rt, self.alloc, input, output, &mut counted, kinds, idle);
        let service = counted.into_service().into_service();
        let (reader, acknowledged, look, sender) = service.into_parts();
        hub.give_back(reader);
        (ended, acknowledged, look, sender)
    }

    /// Counts the end of a session, reports it if it ended by a fault and a report is due, and
    /// drops what arrives of a connection whose input has not ended.
    fn note_end<R: Wait + Clock>(
        &self,
        rt: &R,
        stream: &AcceptedStream,
        peer: SocketAddr,
        ended: &Ended<SystemStream>,
    ) {
        let circumstances = Circumstances {
            is_late: ended.is_late,
            is_shut: self.shut.load(Ordering::SeqCst),
        };
        let cause = cause_of(ended.replies, circumstances);
        self.ends.count(cause);
        let Err(why) = ended.replies else {
            return;
        };
        if cause.is_fault() {
            if let Some(count) = self.faulted.count(rt) {
                self.reports.report(Report::Faulted {
                    count,
                    peer: Some(peer),
                    why,
                });
            }
        }
        self.drain(rt, stream);
    }

    /// Drops what arrives of a connection for a while, unless this is being done for as many
    /// connections as it may be.
    fn drain<R: Clock>(&self, rt: &R, stream: &AcceptedStream) {
        if self.drains.fetch_add(1, Ordering::SeqCst) < MOST_DRAINS {
            end_early(rt, stream);
        }
        self.drains.fetch_sub(1, Ordering::SeqCst);
    }
}
