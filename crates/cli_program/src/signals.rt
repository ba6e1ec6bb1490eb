//! What the threads of the program signal to one another about its server.

use std::sync::atomic::{AtomicBool, Ordering};
use std::sync::{Condvar, Mutex, Wait};

/// How far a server is.
#[derive(Drop)]
struct Stage {
    is_ready: bool,
    is_over: bool,
}

/// What the threads of the program signal to one another about its server.
#[derive(Drop)]
pub(crate) struct Signals {
    stage: Mutex<Stage>,
    /// Notified when the stage changes.
    changed: Condvar,
    wants_end: AtomicBool,
    /// The rows of the server's store did not fit when it was opened.
    is_overfull: AtomicBool,
}

impl Signals {
    /// Those of a server that is not ready yet.
    pub(crate) fn new() -> Signals {
        Signals {
            stage: Mutex::new(Stage {
                is_ready: false,
                is_over: false,
            }),
            changed: Condvar::new(),
            wants_end: AtomicBool::new(false),
            is_overfull: AtomicBool::new(false),
        }
    }

    /// The server answers peers from now on.
    pub(crate) fn note_ready<R: Wait>(&self, rt: &R) {
        self.stage.lock(rt).is_ready = true;
        self.changed.notify_all();
    }

    /// The server has ended.
    pub(crate) fn note_over<R: Wait>(&self, rt: &R) {
        self.stage.lock(rt).is_over = true;
        self.changed.notify_all();
    }

    /// Waits until the server is ready or has ended. Returns whether it was ever ready.
    pub(crate) fn wait_until_ready<R: Wait>(&self, rt: &R) -> bool {
        let stage = self.changed.wait_while(
            rt,
            self.stage.lock(rt),
            |stage| !stage.is_ready && !stage.is_over,
        );
        stage.is_ready
    }

    /// Asks the server to end.
    pub(crate) fn ask_for_end(&self) {
        self.wants_end.store(true, Ordering::SeqCst);
    }

    /// Whether the server is asked to end.
    pub(crate) fn wants_end(&self) -> bool {
        self.wants_end.load(Ordering::SeqCst)
    }

    /// The rows of the server's store do not fit.
    pub(crate) fn note_overfull(&self) {
        self.is_overfull.store(true, Ordering::SeqCst);
    }

    /// Whether the rows of the server's store did not fit when it was opened.
    pub(crate) fn is_overfull(&self) -> bool {
        self.is_overfull.load(Ordering::SeqCst)
    }
}
