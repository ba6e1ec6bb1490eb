//! Which threads of the store wait for memory.

use status_page::MemoryWaits;
use std::sync::atomic::{AtomicBool, Ordering};
use store_loops::Actor;

/// Which threads of the store were refused memory, and try again. Other threads share it, so that
/// no clause says which these are.
#[derive(Drop)]
pub struct Waiting {
    flusher: AtomicBool,
    checkpointer: AtomicBool,
}

impl Waiting {
    /// None.
    pub fn new() -> Waiting {
        Waiting {
            flusher: AtomicBool::new(false),
            checkpointer: AtomicBool::new(false),
        }
    }

    /// Records whether a thread waits.
    pub fn set(&self, actor: Actor, waits: bool) {
        match actor {
            Actor::Flusher => self.flusher.store(waits, Ordering::SeqCst),
            Actor::Checkpointer => self.checkpointer.store(waits, Ordering::SeqCst),
        }
    }

    /// Which of them wait now.
    pub fn now(&self) -> MemoryWaits {
        MemoryWaits {
            flusher: self.flusher.load(Ordering::SeqCst),
            checkpointer: self.checkpointer.load(Ordering::SeqCst),
        }
    }
}
