//! A system whose machine's clock is set.

use path_server::System;
use std::fmt::Display;
use std::io;
use std::process::Abort;
use std::sync::Wait;
use std::sync::atomic::{AtomicU64, Ordering};
use std::thread::Threads;
use std::time::{Clock, Duration};

/// A machine's clock that is set: the seconds by which it is ahead of the clock that no one sets.
#[derive(Drop)]
pub(crate) struct Setting {
    ahead: AtomicU64,
}

impl Setting {
    /// A clock that gives this number of seconds since 1970 now.
    pub(crate) fn new(clock: &impl Clock, seconds: u64) -> io::Result<Setting> {
        let steady = clock.monotonic()?.as_secs();
        Ok(Setting {
            ahead: AtomicU64::new(seconds.saturating_sub(steady)),
        })
    }

    /// Sets it forward by this number of seconds.
    pub(crate) fn jump(&self, seconds: u64) {
        self.ahead.fetch_add(seconds, Ordering::SeqCst);
    }

    /// Sets it back by this number of seconds.
    pub(crate) fn jump_back(&self, seconds: u64) {
        self.ahead.fetch_sub(seconds, Ordering::SeqCst);
    }

    /// The seconds since 1970 that it gives now.
    pub(crate) fn seconds(&self, clock: &impl Clock) -> io::Result<u64> {
        let steady = clock.monotonic()?.as_secs();
        Ok(steady.saturating_add(self.ahead.load(Ordering::SeqCst)))
    }
}

/// The system of a server by such a clock.
#[derive(Clone, Copy, Drop)]
pub(crate) struct SetSystem<'a, R: System + Abort> {
    pub(crate) rt: R,
    pub(crate) setting: &'a Setting,
}

impl<R: System + Abort> Wait for SetSystem<'_, R> {}

impl<R: System + Abort> Threads for SetSystem<'_, R> {}

impl<R: System + Abort> Abort for SetSystem<'_, R> {
    fn abort(&self) -> ! {
        self.rt.abort()
    }

    fn exit(&self, code: i32) -> ! {
        self.rt.exit(code)
    }

    fn panic<D: Display + Drop>(&self, message: D) -> ! {
        self.rt.panic(message)
    }
}

impl<R: System + Abort> Clock for SetSystem<'_, R> {
    fn monotonic(&self) -> io::Result<Duration> {
        self.rt.monotonic()
    }

    fn since_1970(&self) -> io::Result<Duration> {
        let ahead = self.setting.ahead.load(Ordering::SeqCst);
        Ok(
            self.rt
                .monotonic()?
                .saturating_add(Duration::from_secs(ahead)),
        )
    }

    fn sleep(&self, duration: Duration) {
        self.rt.sleep(duration)
    }
}
