//! The condition variables by which threads wait for the answers to their commands.

use crate::checks::{assert_same, assert_true};
use hub_waits::Waker;
use std::process::Abort;
use std::sync::atomic::{AtomicU64, Ordering};
use std::sync::{Condvar, Wait};
use std::thread::{Threads, yield_now};
use std::time::{Clock, Duration, Instant};
use std::{array, thread};

/// How many condition variables there are: the command of a number has the condition variable of
/// the number modulo 512.
const CONDVARS: u64 = 512;

/// Sees how often the condition variables were notified: those of 3 and of 5 this often, and the
/// others never.
fn assert_rung<R: Wait + Abort>(rt: &R, waker: &Waker, three: u64, five: u64) {
    for condvar in 0..CONDVARS {
        let wanted = match condvar {
            3 => three,
            5 => five,
            _ => 0,
        };
        let found = waker.condvar(condvar).notifications();
        assert_same(rt, &found, &wanted, &condvar);
    }
}

// Where no thread notifies, a call notifies each condition variable once that is noted, and no
// other one.
#[test]
fn noted_condvars_are_rung_once(rt: HostRuntime) {
    let waker = Waker::new();
    waker.note(&rt, 3);
    waker.note(&rt, 5);
    waker.note(&rt, CONDVARS + 3);
    assert_rung(&rt, &waker, 0, 0);
    waker.call(&rt);
    assert_rung(&rt, &waker, 1, 1);
    waker.call(&rt);
    assert_rung(&rt, &waker, 1, 1);
    waker.note(&rt, 5);
    waker.call(&rt);
    assert_rung(&rt, &waker, 1, 2);
}

// A waker that is ended before its thread begins notifies what is noted.
#[test]
fn ended_waker_rings_what_is_noted(rt: HostRuntime) {
    let waker = Waker::new();
    waker.expect_thread();
    waker.note(&rt, 3);
    waker.note(&rt, 5);
    waker.call(&rt);
    assert_rung(&rt, &waker, 0, 0);
    waker.end();
    waker.run(&rt);
    assert_rung(&rt, &waker, 1, 1);
}

// A condition variable alone is notified by the call, also where a thread is expected.
#[test]
fn one_condvar_is_rung_at_once(rt: HostRuntime) {
    let waker = Waker::new();
    waker.expect_thread();
    waker.call(&rt);
    assert_rung(&rt, &waker, 0, 0);
    waker.note(&rt, 3);
    waker.note(&rt, CONDVARS + 3);
    waker.call(&rt);
    assert_rung(&rt, &waker, 1, 0);
    waker.call(&rt);
    assert_rung(&rt, &waker, 1, 0);
}

/// How many threads wait for answers.
const SLEEPERS: u64 = 8;

/// How many answers each of them waits for.
const ROUNDS: u64 = 500;

/// The longest sleep over an answer, in seconds: far more than a busy machine needs to notify a
/// condvar. A hub's is 10 milliseconds, so that a condition variable which is not notified costs no
/// more than that.
const LONGEST_SLEEP: u64 = 20;

/// The last round that a thread has asked for, and the last one that was answered.
#[derive(Drop)]
struct Desk {
    asked: AtomicU64,
    answered: AtomicU64,
}

/// The rounds of all threads that ask, and how many sleeps lasted to their end without a
/// notification.
#[derive(Drop)]
struct Desks {
    desks: [Desk; SLEEPERS as usize],
    overslept: AtomicU64,
}

/// Whether the longest sleep has passed since this moment. It has not where there is no clock.
fn is_over<R: Clock>(rt: &R, begun: Option<Instant>) -> bool {
    match begun.map(|moment| moment.elapsed(rt)) {
        Some(Ok(elapsed)) => elapsed.as_secs() >= LONGEST_SLEEP,
        Some(Err(_)) | None => false,
    }
}

/// The rounds of a thread that has asked nothing.
fn new_desk() -> Desk {
    Desk {
        asked: AtomicU64::new(0),
        answered: AtomicU64::new(0),
    }
}

impl Desks {
    /// The rounds of all threads.
    fn new() -> Desks {
        Desks {
            desks: array::from_fn(|_index| new_desk()),
            overslept: AtomicU64::new(0),
        }
    }

    /// The thread of this number asks, and waits for each answer as a session does over a hub.
    fn ask_all<R: Wait + Clock>(&self, rt: &R, waker: &Waker, number: u64) {
        for desk in self.desks.iter().skip(number as usize).take(1) {
            for round in 1..=ROUNDS {
                desk.asked.store(round, Ordering::SeqCst);
                self.wait(rt, waker.condvar(number), desk, round);
            }
        }
    }

    /// No thread was given for this number: all its rounds count as asked.
    fn miss(&self, number: u64) {
        for desk in self.desks.iter().skip(number as usize).take(1) {
            desk.asked.store(ROUNDS, Ordering::SeqCst);
        }
    }

    /// Waits for the answer of a round. A sleep that lasts to its end without a notification is
    /// counted. A shorter one without a notification is not: a notification is a count and then a
    /// wake, and the wake of the round before may come when this one sleeps.
    fn wait<R: Wait + Clock>(&self, rt: &R, condvar: &Condvar, desk: &Desk, round: u64) {
        for _ in rt.forever() {
            let seen = condvar.notifications();
            if desk.answered.load(Ordering::SeqCst) >= round {
                return;
            }
            let begun = Instant::now(rt).ok();
            condvar.sleep(rt, seen, Duration::from_secs(LONGEST_SLEEP));
            if condvar.notifications() == seen && is_over(rt, begun) {
                self.overslept.fetch_add(1, Ordering::SeqCst);
            }
        }
        unreachable!()
    }

    /// Answers all who have asked, notes their condition variables, and has them notified. Whether
    /// all rounds are answered.
    fn answer<R: Wait>(&self, rt: &R, waker: &Waker) -> bool {
        let mut is_done = true;
        for (number, desk) in self.desks.iter().enumerate() {
            let asked = desk.asked.load(Ordering::SeqCst);
            if asked > desk.answered.load(Ordering::SeqCst) {
                desk.answered.store(asked, Ordering::SeqCst);
                waker.note(rt, number as u64);
            }
            is_done = is_done && asked == ROUNDS;
        }
        waker.call(rt);
        is_done
    }

    /// Answers until all rounds are answered, and ends the waker then.
    fn answer_all<R: Wait>(&self, rt: &R, waker: &Waker) {
        for _ in rt.forever() {
            if self.answer(rt, waker) {
                waker.end();
                return;
            }
            yield_now();
        }
        unreachable!()
    }
}

/// Runs the threads that ask and the waker's thread, and answers in this one. Rounds without a
/// thread are answered at once. Returns whether each thread was given.
fn ask_and_answer<R: Wait + Threads + Clock + Sync>(rt: &R, waker: &Waker, desks: &Desks) -> bool {
    thread::scope(thread::scope_env(), rt, |all| {
        if all.spawn(move || waker.run(rt)).is_err() {
            return false;
        }
        let mut is_ok = true;
        for number in 0..SLEEPERS {
            let asks = all.spawn(move || desks.ask_all(rt, waker, number));
            if asks.is_err() {
                desks.miss(number);
                is_ok = false;
            }
        }
        desks.answer_all(rt, waker);
        is_ok
    })
}

// Four thousand answers, each of which wakes who waits for it.
#[test]
fn nobody_sleeps_over_an_answer(rt: HostRuntime) {
    let waker = Waker::new();
    waker.expect_thread();
    let desks = Desks::new();
    let is_ok = ask_and_answer(&&rt, &waker, &desks);
    assert_true(&rt, is_ok, "no thread is refused, as by NoMemory");
    let overslept = desks.overslept.load(Ordering::SeqCst);
    assert_same(&rt, &overslept, &0, &"overslept");
    for desk in &desks.desks {
        let answered = desk.answered.load(Ordering::SeqCst);
        assert_same(&rt, &answered, &ROUNDS, &"answered");
    }
}
