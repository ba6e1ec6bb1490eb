//! The end of a server.

use crate::reports::Reports;
use crate::server::Server;
use paced_stream::Deadline;
use server_front::Listener;
use std::sync::Wait;
use std::sync::atomic::Ordering;
use std::thread::sleep;
use std::time::{Clock, Duration};

/// The time in milliseconds after which it is asked again whether sessions are open.
const NAP: u64 = 20;

impl<L: Listener + Drop, O: Reports> Server<'_, L, O> {
    /// Waits until no session is open. Once the server is to end, the sessions that are open have
    /// the grace of the options to end by themselves. Then their connections are shut down, which
    /// ends each session at its next read or write.
    pub(crate) fn await_last<R: Wait + Clock>(&self, rt: &R) {
        for _ in rt.forever() {
            if self.taken() == 0 {
                return;
            }
            if self.reports.wants_end() {
                break;
            }
            sleep(rt, Duration::from_millis(NAP));
        }
        self.await_grace(rt);
        self.shut.store(true, Ordering::SeqCst);
        self.seats.shut(rt);
        self.lookup_seats.shut(rt);
    }

    /// Waits until no session is open or the grace is over.
    fn await_grace<R: Wait + Clock>(&self, rt: &R) {
        let Ok(deadline) = Deadline::after(rt, self.options.grace) else {
            return;
        };
        for _ in rt.forever() {
            if self.taken() == 0 || deadline.left(rt).is_none() {
                return;
            }
            sleep(rt, Duration::from_millis(NAP));
        }
    }
}
