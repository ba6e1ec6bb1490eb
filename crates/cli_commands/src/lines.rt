//! The lines of a server, which one thread prints and all others hand over.

use crate::priority::{Line, Priority};
use crate::waiting::{Taken, Waiting};
use std::alloc::{AllocError, Global};
use std::sync::{Condvar, CondvarTimeouts, Mutex, Wait};
use std::time::{Clock, Duration};

/// How long the program waits for lines to be printed, in seconds.
const LONGEST: u64 = 1;

/// The lines that wait, and whether more are to come.
#[derive(Drop)]
struct Shared<L> {
    waiting: Waiting<L>,
    /// A line that waited is being printed.
    is_printing: bool,
    /// No more lines come.
    is_ended: bool,
}

impl<L: Drop> Shared<L> {
    /// Whether lines are still to be printed.
    fn is_busy(&self) -> bool {
        self.is_printing || !self.waiting.is_empty()
    }
}

/// The lines of a server. A thread that hands a line over waits for no print: the lock is held for
/// a few moves alone. No clause says which lines wait, as other threads hand lines over and take
/// them.
#[derive(Drop)]
pub struct Lines<L> {
    shared: Mutex<Shared<L>>,
    /// Notified when a line comes, and when no more come.
    came: Condvar,
    /// Notified when a line is printed.
    printed: Condvar,
    /// Whether each line begins with its priority.
    is_marked: bool,
}

impl<L: Line + Drop> Lines<L> {
    /// No lines yet. Each will begin with its priority where `is_marked` says so. No clause says
    /// so.
    pub fn new(alloc: Global, is_marked: bool) -> Result<Lines<L>, AllocError> {
        let shared = Shared {
            waiting: Waiting::new(alloc)?,
            is_printing: false,
            is_ended: false,
        };
        Ok(Lines {
            shared: Mutex::new(shared),
            came: Condvar::new(),
            printed: Condvar::new(),
            is_marked,
        })
    }

    /// Hands a line over. Where no room is left it is dropped and counted.
    pub fn push<R: Wait>(&self, rt: &R, line: L) {
        self.shared.lock(rt).waiting.push(line);
        self.came.notify_all();
    }

    /// The number of lines that were dropped. No clause says which number this is.
    pub fn dropped<R: Wait>(&self, rt: &R) -> u64 {
        self.shared.lock(rt).waiting.all_dropped()
    }

    /// Waits for the next line to print. The result is `None` once all were taken and no more come.
    fn next<R: Wait>(&self, rt: &R) -> Option<Taken<L>> {
        let mut shared = self.came.wait_while(rt, self.shared.lock(rt), |shared| {
            shared.waiting.is_empty() && !shared.is_ended
        });
        let taken = shared.waiting.take();
        shared.is_printing = taken.is_some();
        taken
    }

    /// The line that was taken last is printed.
    fn note_printed<R: Wait>(&self, rt: &R) {
        self.shared.lock(rt).is_printing = false;
        self.printed.notify_all();
    }

    /// Waits until no line waits or is being printed, for at most `LONGEST` seconds.
    pub fn flush<R: Wait + Clock>(&self, rt: &R) {
        let longest = Duration::from_secs(LONGEST);
        let _flushed = self.printed.wait_timeout_while(
            rt,
            self.shared.lock(rt),
            longest,
            |shared| shared.is_busy(),
        );
    }

    /// No more lines come. Waits as `flush` does.
    pub fn end<R: Wait + Clock>(&self, rt: &R) {
        self.shared.lock(rt).is_ended = true;
        self.came.notify_all();
        self.flush(rt);
    }

    /// Prints lines as they come, until no more come and all are printed. A line that cannot be
    /// printed is left out.
    pub fn print_all<R: Wait + Eprint>(&self, rt: &R) {
        for _ in rt.forever() {
            let Some(taken) = self.next(rt) else {
                return;
            };
            print(rt, &taken, self.is_marked);
            self.note_printed(rt);
        }
    }
}

/// Prints a line, after one for those that were dropped before it.
fn print<L: Line, R: Eprint>(rt: &R, taken: &Taken<L>, is_marked: bool) {
    if taken.dropped > 0 {
        let mark = Priority::Warning.mark_where(is_marked);
        let _ = eprintln!(rt; "{mark}pathd: {} lines were dropped", taken.dropped);
    }
    let mark = taken.line.priority().mark_where(is_marked);
    let _ = eprintln!(rt; "{mark}pathd: {}", taken.line);
}
