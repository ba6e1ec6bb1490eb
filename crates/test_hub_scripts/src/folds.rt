//! Commands whose outcomes depend on their order, and a ledger of what sessions that run beside
//! each other are answered: each place is given once, and each command did what it does in the
//! order of places.

use crate::stores::register;
use path_db::{Command, Outcome};
use seg_core::SegType;
use std::alloc::Global;
use std::sync::{Mutex, Wait};
use test_support::{EXPIRY, ID, TestHost, assert_same, assert_true};

/// How many segments the commands name.
pub const SEGMENTS: usize = 4;

/// The moment at which these segments expire, in half seconds since 1970.
pub const LAST_MOMENT: u64 = EXPIRY;

/// A command. A segment is named by its number, which is one below that of the interface by which
/// it is left.
#[derive(Clone, Copy, Debug, PartialEq, Eq)]
pub enum Act {
    /// Registers a segment.
    Register(u8),
    /// Removes a segment.
    Remove(u8),
    /// Drops what expires at moment 0: nothing.
    PurgeNothing,
    /// Drops what expires at the last moment: all rows.
    PurgeAll,
}

/// The ids of the segments, by their numbers: SHA-256 over `0001ff0000000110 0000`, the interface,
/// and `0001ff0000000111 0002 0000`, from Python's hashlib.
pub const IDS: [[u8; 32]; SEGMENTS] = [
    ID,
    [
        0x19, 0x31, 0x4b, 0x93, 0x3e, 0x50, 0x98, 0xa8, 0x4b, 0x6d, 0xe3, 0x0c, 0xb4, 0x40, 0xe9,
        0x7a, 0x63, 0xcd, 0x68, 0x6a, 0x1c, 0x50, 0xae, 0x24, 0xc2, 0x57, 0xd0, 0xac, 0x1a, 0x2e,
        0x18, 0xb6,
    ],
    [
        0xbe, 0x3e, 0x32, 0xa1, 0x9b, 0x42, 0xc4, 0xf9, 0xe0, 0x86, 0x0e, 0xe2, 0xac, 0xe9, 0x10,
        0x13, 0xc5, 0x8b, 0x8e, 0x18, 0x8f, 0x21, 0x44, 0x96, 0x4d, 0x17, 0x2f, 0x4b, 0x54, 0x90,
        0x92, 0xa7,
    ],
    [
        0xfe, 0x0b, 0x15, 0x8b, 0x8d, 0x6e, 0x42, 0x1b, 0xdf, 0xe9, 0xd6, 0xd4, 0x68, 0x8d, 0x74,
        0x37, 0x17, 0x70, 0x41, 0x78, 0x76, 0xc5, 0x65, 0x00, 0xb9, 0x3b, 0x0f, 0x0a, 0x18, 0x26,
        0x13, 0x3a,
    ],
];

/// What sessions send, over and over: a session begins at a line of its own.
const LINES: [Act; 11] = [
    Act::Register(0),
    Act::Register(1),
    Act::Remove(0),
    Act::Register(1),
    Act::PurgeNothing,
    Act::Register(2),
    Act::Remove(3),
    Act::Register(0),
    Act::Register(3),
    Act::Remove(1),
    Act::PurgeAll,
];

/// What a session sends as its command of this index.
pub fn act_of(session: u64, index: usize) -> Act {
    let line = session.wrapping_mul(3).wrapping_add(index as u64) % LINES.len() as u64;
    match LINES.get(line as usize) {
        Some(act) => *act,
        None => Act::PurgeNothing,
    }
}

/// The command. None where memory is refused, or the number is none of a segment.
pub fn command_of(alloc: Global, act: Act) -> Option<Command> {
    match act {
        Act::Register(number) => register(alloc, 0x10, number.wrapping_add(1)),
        Act::Remove(number) => Some(Command::Remove(SegType::Down, *IDS.get(usize::from(number))?)),
        Act::PurgeNothing => Some(Command::Purge(0)),
        Act::PurgeAll => Some(Command::Purge(LAST_MOMENT)),
    }
}

/// How many rows a command inserted, updated, kept and dropped.
pub type Counts = [u32; 4];

/// What an outcome counts.
pub fn counts_of(outcome: Outcome) -> Counts {
    [
        outcome.inserted,
        outcome.updated,
        outcome.kept,
        outcome.purged,
    ]
}

/// Which segments are there.
type Rows = [bool; SEGMENTS];

/// Puts a row, or takes it away: whether it was there before.
fn replaced(rows: &mut Rows, number: u8, is_there: bool) -> bool {
    match rows.get_mut(usize::from(number)) {
        Some(row) => {
            let was_there = *row;
            *row = is_there;
            was_there
        }
        None => false,
    }
}

/// How many segments are there.
fn count_of(rows: &Rows) -> u32 {
    rows.iter()
        .fold(0, |count: u32, row| count.saturating_add(u32::from(*row)))
}

/// What a command does to these rows.
fn folded(rows: &mut Rows, act: Act) -> Counts {
    match act {
        Act::Register(number) => {
            let was_there = replaced(rows, number, true);
            [u32::from(!was_there), 0, u32::from(was_there), 0]
        }
        Act::Remove(number) => [0, 0, 0, u32::from(replaced(rows, number, false))],
        Act::PurgeNothing => [0; 4],
        Act::PurgeAll => {
            let count = count_of(rows);
            *rows = [false; SEGMENTS];
            [0, 0, 0, count]
        }
    }
}

/// What was answered at a place: by whom the command was sent, and what it did.
#[derive(Clone, Copy, Debug, PartialEq, Eq)]
struct Entry {
    session: u64,
    act: Act,
    counts: Counts,
}

/// What was answered, by places.
#[derive(Drop)]
pub struct Ledger {
    entries: Mutex<Vec<Option<Entry>>>,
}

impl Ledger {
    /// A ledger for this number of commands.
    pub fn new(rt: &impl TestHost, alloc: Global, count: usize) -> Ledger {
        match vec![in alloc; None; count] {
            Ok(entries) => Ledger {
                entries: Mutex::new(entries),
            },
            Err(_) => rt.fail("out of memory"),
        }
    }

    /// Enters a session's command that is acknowledged at a place, which no other command has.
    pub fn enter<R: TestHost + Wait>(
        &self,
        rt: &R,
        place: u64,
        (session, act): (u64, Act),
        counts: Counts,
    ) {
        let mut entries = self.entries.lock(rt);
        let entry = Entry {
            session,
            act,
            counts,
        };
        match entries.get_mut(place as usize) {
            Some(free) if free.is_none() => *free = Some(entry),
            Some(taken) => rt.fail(format_args!("place {place}: {taken:?}, and {entry:?}")),
            None => rt.fail(format_args!("place {place}: {entry:?}")),
        }
    }

    /// Sees that each place was given, and that each command did what it does in the order of
    /// places: how many rows there are at the end.
    pub fn rows<R: TestHost + Wait>(&self, rt: &R) -> usize {
        let mut rows = [false; SEGMENTS];
        let entries = self.entries.lock(rt);
        for (place, entry) in entries.iter().enumerate() {
            assert_entry(rt, &mut rows, place, entry);
        }
        count_of(&rows) as usize
    }
}

/// Sees that a command did what it does to these rows.
fn assert_entry(rt: &impl TestHost, rows: &mut Rows, place: usize, entry: &Option<Entry>) {
    assert_true(rt, entry.is_some(), "each place is given");
    if let Some(entry) = entry {
        let wanted = folded(rows, entry.act);
        assert_same(rt, &entry.counts, &wanted, &(place, entry));
    }
}
