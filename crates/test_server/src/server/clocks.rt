//! A server that purges by itself, while its machine's clock is set.

use crate::server::checks::{assert_same, assert_true};
use crate::server::doors::{nap, naps};
use crate::server::peers::{EMPTY_LOOKUP, NO_DESTINATION, Peer};
use crate::server::rows::PURGE;
use crate::server::set_clock::{SetSystem, Setting};
use crate::server::stores::{
    EXPIRED_PLACE, LEAST, assert_opens_to, formatted, of_expired_rows, opened,
};
use crate::server::watching::{GET_NUMBERS, answer_to, status_listener};
use crate::server::worlds::{
    Clients, Counts, Others, Outside, World, assert_served, options, serve_by,
};
use sector_dev::MemDevice;
use std::alloc::Global;
use std::io;
use std::net::SocketAddr;
use std::process::Abort;
use std::time::{Clock, Duration};

/// The period of the purges, in milliseconds.
const PERIOD: u64 = 20;

/// How often a peer waits for a page: for half a minute.
const MOST_NAPS: u64 = 6_000;

/// For how many naps nothing is to change: for some periods.
const SOME_NAPS: u64 = 40;

/// The rows of the store, as many as have room.
const ROWS: u8 = 9;

/// The timestamp of these rows, and when they expire, in seconds since 1970.
const TIMESTAMP: u64 = 1_700_000_000;

const EXPIRY: u64 = 1_700_021_600;

const HOUR: u64 = 3_600;

const DAY: u64 = 86_400;

/// The lines of the page by which own purges rest, and go on.
const RESTING: &str = "\npathd_purges_resting 1\n";

const GOING_ON: &str = "\npathd_purges_resting 0\n";

/// The line of the rows, where there are all and where there is none.
const ALL_ROWS: &str = "\npathd_rows 9\n";

const NO_ROW: &str = "\npathd_rows 0\n";

/// The line of the commands of the store before any was accepted.
const NO_COMMAND: &str = "\npathd_commands_total 5\n";

/// The same, after one.
const ONE_COMMAND: &str = "\npathd_commands_total 6\n";

/// The page of numbers of a server whose clock is set.
#[derive(Clone, Copy)]
struct Page<'a> {
    at: SocketAddr,
    setting: &'a Setting,
}

impl Page<'_> {
    /// Whether the page has this line.
    fn has<R: Outside>(&self, rt: R, alloc: Global, line: &str) -> io::Result<bool> {
        Ok(
            answer_to(rt, alloc, self.at, GET_NUMBERS)?
                .as_str()
                .contains(line),
        )
    }

    /// Whether the page has this line soon, or has it no more.
    fn soon<R: Outside>(&self, rt: R, alloc: Global, line: &str, has: bool) -> io::Result<bool> {
        for _ in 0..MOST_NAPS {
            if self.has(rt, alloc, line)? == has {
                return Ok(true);
            }
            nap(&rt);
        }
        Ok(false)
    }

    /// Whether the page has this line, and still has it after some periods.
    fn keeps<R: Outside>(&self, rt: R, alloc: Global, line: &str) -> io::Result<bool> {
        let has = self.has(rt, alloc, line)?;
        naps(&rt, SOME_NAPS);
        Ok(has && self.has(rt, alloc, line)?)
    }
}

/// Serves clients from a device by a server that purges by itself and has a clock that is set. It
/// keeps rows for this number of seconds past their expiry. Returns the device, and what the
/// clients saw.
fn served_by<R: World, C: Clients + Sync>(
    rt: R,
    alloc: Global,
    (device, others): (MemDevice, Others),
    (setting, grace): (&Setting, u64),
    clients: &C,
    counts: &Counts,
) -> (MemDevice, C::Seen) {
    let mut options = options(&rt, alloc, 1);
    options.purge = Some(Duration::from_millis(PERIOD));
    options.purge_grace = grace;
    let system = SetSystem { rt, setting };
    let (device, served, seen) = serve_by(
        rt, system, alloc, device, others, &options, clients, counts,
    );
    (device, assert_served(&rt, served, seen, 1))
}

/// A clock that gives this number of seconds since 1970 now.
fn set_to(rt: &(impl Abort + Clock), seconds: u64) -> Setting {
    Setting::new(rt, seconds).expect(rt, "the clock is read")
}

/// Sees that a device opens to this number of rows, after more than this number of commands.
fn assert_left(rt: &impl Abort, alloc: Global, device: MemDevice, rows: usize, commands: u64) {
    let store = opened(rt, alloc, device);
    let place = store.place();
    assert_true(rt, place > EXPIRED_PLACE + commands, "a purge has a place");
    let _device = assert_opens_to(rt, alloc, store.into_device(), rows, place);
}

/// Sets the clock to another time once own purges are made, and back.
#[derive(Drop)]
struct Jumping<'a> {
    page: Page<'a>,
    seconds: u64,
    is_ahead: bool,
}

impl Jumping<'_> {
    /// Sets the clock forward or back.
    fn set(&self, forward: bool) {
        if forward {
            self.page.setting.jump(self.seconds);
        } else {
            self.page.setting.jump_back(self.seconds);
        }
    }
}

impl Clients for Jumping<'_> {
    type Seen = [bool; 5];

    fn meet<R: Outside>(&self, rt: R, alloc: Global, to: SocketAddr) -> io::Result<[bool; 5]> {
        let mut peer = Peer::connect(rt, alloc, to)?;
        let is_open = peer.asks(EMPTY_LOOKUP, NO_DESTINATION)?;
        let has_purged = self.page.soon(rt, alloc, NO_COMMAND, false)?;
        self.set(self.is_ahead);
        let rests = self.page.soon(rt, alloc, RESTING, true)?;
        let keeps_all = self.page.keeps(rt, alloc, ALL_ROWS)?;
        self.set(!self.is_ahead);
        let goes_on = self.page.soon(rt, alloc, GOING_ON, true)?;
        Ok([is_open, has_purged, rests, keeps_all, goes_on])
    }
}

/// Has a server purge by itself while its clock is set to another time and back, and sees that it
/// drops no row.
fn assert_jumped<R: World>(rt: R, alloc: Global, seconds: u64, is_ahead: bool) {
    let device = of_expired_rows(&rt, alloc, ROWS);
    let (others, at) = status_listener(rt);
    let setting = set_to(&rt, TIMESTAMP + HOUR);
    let page = Page {
        at,
        setting: &setting,
    };
    let clients = Jumping {
        page,
        seconds,
        is_ahead,
    };
    let counts = Counts::new();
    let (device, seen) = served_by(
        rt,
        alloc,
        (device, others),
        (&setting, 0),
        &clients,
        &counts,
    );
    assert_same(&rt, &seen, &[true; 5], &"seen");
    assert_same(&rt, &counts.rests(), &1, &"rests");
    assert_same(&rt, &counts.goes_on(), &1, &"goes on");
    assert_left(&rt, alloc, device, usize::from(ROWS), 0);
}

// All rows have expired by the time to which the clock jumps. As soon as it is back, purges go on.
#[test]
fn clock_that_jumps_ahead_drops_nothing(rt: HostRuntime) {
    assert_jumped(&rt, rt.alloc(), 10 * HOUR, true);
}

#[test]
fn clock_that_jumps_back_by_years_drops_nothing(rt: HostRuntime) {
    assert_jumped(&rt, rt.alloc(), 1_000 * DAY, false);
}

/// Asks for a purge of 1970, and for one of the clock's moment.
#[derive(Drop)]
struct Asking<'a> {
    page: Page<'a>,
}

/// What purges at the places 5 and 6 are replied, which drop no row and all.
const PURGED_NONE: &str = "0000001983000000000000000500000000000000000000000000000000";

const PURGED_ALL: &str = "0000001983000000000000000600000000000000000000000000000009";

impl Clients for Asking<'_> {
    type Seen = [bool; 7];

    fn meet<R: Outside>(&self, rt: R, alloc: Global, to: SocketAddr) -> io::Result<[bool; 7]> {
        let mut peer = Peer::connect(rt, alloc, to)?;
        let rests = self.page.soon(rt, alloc, RESTING, true)?;
        let has_made_none = self.page.keeps(rt, alloc, NO_COMMAND)?;
        let is_replied = peer.asks(PURGE, PURGED_NONE)?;
        let still_rests = self.page.keeps(rt, alloc, ONE_COMMAND)?;
        let moment = 2 * self.page.setting.seconds(&rt)?;
        let purge = format!(in alloc; "0000000903{moment:016x}")?;
        let drops_all = peer.asks(purge.as_str(), PURGED_ALL)?;
        let goes_on = self.page.soon(rt, alloc, GOING_ON, true)?;
        let is_counted_apart = self.page.has(rt, alloc, NONE_BY_ITSELF)?;
        Ok([
            rests,
            has_made_none,
            is_replied,
            still_rests,
            drops_all,
            goes_on,
            is_counted_apart,
        ])
    }
}

/// The line of the rows that own purges have dropped: none.
const NONE_BY_ITSELF: &str = "\npathd_own_purged_rows_total 0\n";

// A clock that is 30 days ahead at a start is not trusted until a session asks for a purge of its
// moment.
#[test]
fn clock_that_is_ahead_at_a_start_is_confirmed_by_a_session(rt: HostRuntime) {
    let alloc = rt.alloc();
    let device = of_expired_rows(&rt, alloc, ROWS);
    let (others, at) = status_listener(&rt);
    let setting = set_to(&rt, TIMESTAMP + 30 * DAY);
    let page = Page {
        at,
        setting: &setting,
    };
    let clients = Asking { page };
    let counts = Counts::new();
    let (device, seen) = served_by(
        &rt,
        alloc,
        (device, others),
        (&setting, 0),
        &clients,
        &counts,
    );
    assert_same(&rt, &seen, &[true; 7], &"seen");
    assert_same(&rt, &counts.rests(), &1, &"rests");
    assert_same(&rt, &counts.goes_on(), &1, &"goes on");
    assert_same(&rt, &counts.purged_most(), &0, &"purged most");
    // Own purges go on after those two of the session.
    assert_left(&rt, alloc, device, 0, 2);
}

/// Waits for own purges, and sees whether all rows are there after them.
#[derive(Drop)]
struct Waiting<'a> {
    page: Page<'a>,
    /// The line of the rows after a purge.
    rows: &'static str,
}

impl Clients for Waiting<'_> {
    type Seen = [bool; 3];

    fn meet<R: Outside>(&self, rt: R, alloc: Global, to: SocketAddr) -> io::Result<[bool; 3]> {
        let mut peer = Peer::connect(rt, alloc, to)?;
        let is_open = peer.asks(EMPTY_LOOKUP, NO_DESTINATION)?;
        let has_purged = self.page.soon(rt, alloc, NO_COMMAND, false)?;
        let has_rows = self.page.keeps(rt, alloc, self.rows)?;
        Ok([is_open, has_purged, has_rows])
    }
}

/// Has a server purge by itself that keeps rows for a while past their expiry, at this number of
/// seconds after it, and sees which rows it has after that.
fn assert_kept<R: World>(
    rt: R,
    alloc: Global,
    (grace, after): (u64, u64),
    (rows, purged_most): (&'static str, u64),
) {
    let device = of_expired_rows(&rt, alloc, ROWS);
    let (others, at) = status_listener(rt);
    let setting = set_to(&rt, EXPIRY + after);
    let page = Page {
        at,
        setting: &setting,
    };
    let clients = Waiting { page, rows };
    let counts = Counts::new();
    let (_device, seen) = served_by(
        rt,
        alloc,
        (device, others),
        (&setting, grace),
        &clients,
        &counts,
    );
    assert_same(&rt, &seen, &[true; 3], &"seen");
    assert_same(&rt, &counts.rests(), &0, &"rests");
    assert_same(&rt, &counts.purged_most(), &purged_most, &"purged most");
}

#[test]
fn rows_are_kept_for_the_grace(rt: HostRuntime) {
    assert_kept(&rt, rt.alloc(), (HOUR, 1), (ALL_ROWS, 0));
}

// That more than half of the rows were dropped is reported.
#[test]
fn rows_are_dropped_after_the_grace(rt: HostRuntime) {
    assert_kept(&rt, rt.alloc(), (HOUR, HOUR + 1), (NO_ROW, 1));
}

/// Waits for some periods, and sees that nothing is said of the clock.
#[derive(Drop)]
struct Silent<'a> {
    page: Page<'a>,
}

impl Clients for Silent<'_> {
    type Seen = [bool; 2];

    fn meet<R: Outside>(&self, rt: R, alloc: Global, to: SocketAddr) -> io::Result<[bool; 2]> {
        let mut peer = Peer::connect(rt, alloc, to)?;
        let is_open = peer.asks(EMPTY_LOOKUP, NO_DESTINATION)?;
        let is_silent = self.page.keeps(rt, alloc, GOING_ON)?;
        Ok([is_open, is_silent])
    }
}

// There is nothing to purge, and so nothing to say of a clock.
#[test]
fn purges_of_an_empty_store_rest_silently(rt: HostRuntime) {
    let alloc = rt.alloc();
    let device = formatted(&rt, alloc, LEAST);
    let (others, at) = status_listener(&rt);
    let setting = set_to(&rt, TIMESTAMP);
    let page = Page {
        at,
        setting: &setting,
    };
    let clients = Silent { page };
    let counts = Counts::new();
    let (device, seen) = served_by(
        &rt,
        alloc,
        (device, others),
        (&setting, 0),
        &clients,
        &counts,
    );
    assert_same(&rt, &seen, &[true; 2], &"seen");
    assert_same(&rt, &counts.rests(), &0, &"rests");
    let _device = assert_opens_to(&rt, alloc, device, 0, 0);
}
