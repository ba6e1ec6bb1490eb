//! A service that takes its time.

use crate::connections::clock::MovedClock;
use seg_core::{SegType, Segment};
use session_core::{Code, ListRequest, Listing, Message, Service};
use std::alloc::Global;

/// Answers as another service does, and moves a clock by this number of milliseconds before each
/// answer.
pub struct Busy<'a, S> {
    pub service: S,
    pub clock: &'a MovedClock,
    pub takes: u64,
}

impl<S: Service> Service for Busy<'_, S> {
    type UnderWay = S::UnderWay;

    type Ack = S::Ack;

    ghost State = { S.State };

    ghost state = { λ busy. S.state busy.service };

    ghost answers = { S.answers };

    ghost is_for = { S.is_for };

    ghost Sent = { S.Sent };

    ghost sent = { λ busy. S.sent busy.service };

    ghost hands_in = { S.hands_in };

    fn register(&mut self, alloc: Global, message: &[u8]) -> Result<S::Ack, Code> {
        self.clock.pass(self.takes);
        self.service.register(alloc, message)
    }

    fn lookup(&mut self, alloc: Global, message: &[u8]) -> Result<(SegType, Vec<Segment>), Code> {
        self.clock.pass(self.takes);
        self.service.lookup(alloc, message)
    }

    fn purge(&mut self, moment: u64) -> Result<S::Ack, Code> {
        self.clock.pass(self.takes);
        self.service.purge(moment)
    }

    fn remove(&mut self, kind: u8, id: &[u8; 32]) -> Result<S::Ack, Code> {
        self.clock.pass(self.takes);
        self.service.remove(kind, id)
    }

    fn list(&mut self, alloc: Global, request: &ListRequest) -> Result<Listing, Code> {
        self.clock.pass(self.takes);
        self.service.list(alloc, request)
    }

    fn hand_in(&mut self, alloc: Global, message: Message<&[u8]>) -> Option<S::UnderWay> {
        self.service.hand_in(alloc, message)
    }

    fn settle(&mut self, under_way: S::UnderWay) -> Result<S::Ack, Code> {
        self.clock.pass(self.takes);
        self.service.settle(under_way)
    }
}
