//! Waking the threads whose commands are answered.

use std::array;
use std::mem::replace;
use std::sync::atomic::{AtomicBool, Ordering};
use std::sync::{Condvar, Mutex, Wait};
use std::time::Duration;

/// The number of condition variables. The commands of 64 sessions that are 8 ahead each have one
/// each, so that a thread is woken for its own answer alone.
const CONDVARS: usize = 512;

/// The bits of a word.
const BITS: usize = 64;

/// The number of words that have a bit for each condition variable.
const WORDS: usize = CONDVARS / BITS;

/// The longest sleep of the thread that notifies, in milliseconds.
const LONGEST_SLEEP: u64 = 1000;

/// The condition variables: the command of number n has the one of index n modulo 512.
#[derive(Drop)]
struct Condvars {
    condvars: [Condvar; CONDVARS],
}

impl Condvars {
    /// Makes condition variables, none of which was notified yet.
    fn new() -> Condvars {
        Condvars {
            condvars: array::from_fn(|_index| Condvar::new()),
        }
    }

    /// The condition variable of the command of a number. Each 512th command after it has the same
    /// one.
    fn of(&self, number: u64) -> &Condvar {
        &self.condvars[(number % CONDVARS as u64) as usize]
    }
}

/// The condition variables of commands that were handed in, by their numbers. A thread of its own
/// notifies several condition variables, so that the thread that answers a whole group does not
/// wait until all are woken. A condition variable alone is notified by the thread that answers, and
/// so are all where no thread runs the waker.
#[derive(Drop)]
pub struct Waker {
    condvars: Condvars,
    /// For each condition variable, a bit that says whether it must be notified.
    due: Mutex<[u64; WORDS]>,
    calls: Condvar,
    has_thread: AtomicBool,
    is_over: AtomicBool,
}

impl Waker {
    /// No condition variable must be notified, and there is no thread that notifies them.
    pub fn new() -> Waker {
        Waker {
            condvars: Condvars::new(),
            due: Mutex::new([0; WORDS]),
            calls: Condvar::new(),
            has_thread: AtomicBool::new(false),
            is_over: AtomicBool::new(false),
        }
    }

    /// The condition variable of the command of a number.
    pub fn condvar(&self, number: u64) -> &Condvar {
        self.condvars.of(number)
    }

    /// Notes that the condition variable of a number must be notified.
    pub fn note<R: Wait>(&self, rt: &R, number: u64) {
        let index = (number % CONDVARS as u64) as usize;
        self.due.lock(rt)[index / BITS] |= 1 << (index % BITS);
    }

    /// Has the noted condition variables notified: by the waker's thread, where it has one and
    /// several are noted, else by this thread. Once the waker is ended, several that are noted
    /// after that are notified by no thread: who sleeps on one of them wakes at the end of its
    /// rest.
    pub fn call<R: Wait>(&self, rt: &R) {
        if self.has_thread.load(Ordering::SeqCst) && self.count_due(rt) > 1 {
            self.calls.notify_all();
        } else {
            self.notify_due(rt);
        }
    }

    /// Says that a thread is going to run the waker.
    pub fn expect_thread(&self) {
        self.has_thread.store(true, Ordering::SeqCst);
    }

    /// Ends the waker's thread, once it has notified what is noted.
    pub fn end(&self) {
        self.is_over.store(true, Ordering::SeqCst);
        self.calls.notify_all();
    }

    /// Notifies condition variables as they are noted, until the waker is ended.
    pub fn run<R: Wait>(&self, rt: &R) {
        for _ in rt.forever() {
            let seen = self.calls.notifications();
            let is_over = self.is_over.load(Ordering::SeqCst);
            self.notify_due(rt);
            if is_over {
                return;
            }
            self.calls
                .sleep(rt, seen, Duration::from_millis(LONGEST_SLEEP));
        }
        unreachable!()
    }

    /// The number of condition variables that are noted.
    fn count_due<R: Wait>(&self, rt: &R) -> u32 {
        let mut count = 0u32;
        for word in self.due.lock(rt).iter() {
            count = count.saturating_add(word.count_ones());
        }
        count
    }

    /// Notifies the condition variables that are noted.
    fn notify_due<R: Wait>(&self, rt: &R) {
        let due = replace(&mut *self.due.lock(rt), [0; WORDS]);
        for (word, bits) in due.iter().enumerate() {
            let mut left = *bits;
            for _ in 0..left.count_ones() {
                let index = (BITS * word) as u64 + u64::from(left.trailing_zeros());
                self.condvars.of(index).notify_all();
                left &= left.wrapping_sub(1);
            }
        }
    }
}
