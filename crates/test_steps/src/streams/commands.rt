//! Rows by numbers, and the commands that register and drop them.

use path_db::{Command, PathDb, Registration};
use path_records::Key;
use seg_core::{SegType, Segment, read_segment};
use std::alloc::Global;
use test_support::{EXPIRY, SEGMENT, TestHost};

/// The most rows that one command registers.
const MOST: u16 = 16;

/// Where in the segment the number of its last AS is: in its first entry, and in its second one.
const IN_FIRST: usize = 27;

const IN_SECOND: usize = 62;

/// The segment to the AS of this number, below 16,384 and not 272, and made this number of seconds
/// after it, below 128.
fn message_of(number: u16, later: u8) -> [u8; 88] {
    let mut message = SEGMENT;
    message[3] = 0x80 | later;
    // The lower 14 bits of the number, 7 in a byte, lowest first.
    let low = 0x80 | (number % 128) as u8;
    let high = 0x80 | (number / 128 % 128) as u8;
    message[IN_FIRST] = low;
    message[IN_FIRST + 1] = high;
    message[IN_SECOND] = low;
    message[IN_SECOND + 1] = high;
    message
}

/// The type of the segment of a number.
fn kind_of(number: u16) -> SegType {
    match number % 3 {
        0 => SegType::Up,
        1 => SegType::Down,
        _ => SegType::Core,
    }
}

/// The moment up to which a segment expires that was made this number of seconds after the worked
/// one.
pub fn moment(later: u64) -> u64 {
    EXPIRY.saturating_add(later.saturating_mul(2))
}

/// Appends the segment of a number, unless memory is refused.
fn push_row(
    alloc: Global,
    rows: &mut Vec<(SegType, Segment)>,
    number: u16,
    later: u8,
) -> Option<()> {
    let segment = read_segment(alloc, &message_of(number, later)).ok()?;
    rows.push((kind_of(number), segment)).ok()
}

/// The registration of the segments of this many numbers from one on, unless memory is refused.
/// They were made at moments that differ.
fn registration(alloc: Global, from: u16, count: u16, salt: u16) -> Option<Registration> {
    let mut rows = Vec::new(alloc);
    for each in 0..count {
        let number = from.saturating_add(each);
        let later = (number / 3).saturating_add(salt) % 100;
        push_row(alloc, &mut rows, number, later as u8)?;
    }
    Some(Registration::new(rows))
}

/// The command that registers the segments of this many numbers from one on. By the salt go the
/// moments at which they were made. Where memory is refused, it is asked for once more.
pub fn register(rt: &impl TestHost, alloc: Global, from: u16, count: u16, salt: u16) -> Command {
    let made = match registration(alloc, from, count, salt) {
        None => registration(alloc, from, count, salt),
        made => made,
    };
    match made {
        Some(registration) => Command::Register(registration),
        None => rt.fail("out of memory"),
    }
}

/// The removal of the first segment that a command registers.
pub fn removal_of(rt: &impl TestHost, command: &Command) -> Command {
    let Command::Register(registration) = command else {
        rt.fail("no registration");
    };
    match registration.as_slice().first() {
        Some((kind, segment)) => {
            let key = Key::of(*kind, segment);
            Command::Remove(key.kind, key.id)
        }
        None => rt.fail("no segment"),
    }
}

/// Room for commands. Where memory is refused, it is asked for once more.
pub fn room(rt: &impl TestHost, alloc: Global, count: usize) -> Vec<Command> {
    let given = match Vec::with_capacity(alloc, count) {
        Err(_) => Vec::with_capacity(alloc, count),
        given => given,
    };
    match given {
        Ok(commands) => commands,
        Err(_) => rt.fail("out of memory"),
    }
}

/// Appends a command, for which there is room.
pub fn add(rt: &impl TestHost, commands: &mut Vec<Command>, command: Command) {
    if commands.push(command).is_err() {
        rt.fail("out of memory");
    }
}

/// Appends the registration of the block of this number of the segments of some numbers, sixteen in
/// each block.
fn add_block(
    rt: &impl TestHost,
    alloc: Global,
    commands: &mut Vec<Command>,
    (from, count): (u16, u16),
    block: u16,
    salt: u16,
) {
    let done = block.saturating_mul(MOST);
    let many = count.saturating_sub(done).min(MOST);
    let command = register(rt, alloc, from.saturating_add(done), many, salt);
    add(rt, commands, command);
}

/// The commands that register the segments of this many numbers from one on, sixteen in each.
pub fn registrations(rt: &impl TestHost, alloc: Global, from: u16, count: u16) -> Vec<Command> {
    let mut commands = room(rt, alloc, 200);
    for block in 0..count.div_ceil(MOST) {
        add_block(rt, alloc, &mut commands, (from, count), block, 0);
    }
    commands
}

/// Appends what is between two registrations: after some of them the removal of their first
/// segment, and after others a purge.
fn add_between(rt: &impl TestHost, commands: &mut Vec<Command>, block: u16) {
    if block % 9 == 4 {
        let removal = removal_of_last(rt, commands);
        add(rt, commands, removal);
    }
    if block % 40 == 13 {
        add(rt, commands, Command::Purge(moment(u64::from(block % 31))));
    }
}

/// The removal of the first segment that the last one of these commands registers.
fn removal_of_last(rt: &impl TestHost, commands: &[Command]) -> Command {
    match commands.last() {
        Some(command) => removal_of(rt, command),
        None => rt.fail("no command"),
    }
}

/// The same, with other moments at which the segments were made, and with removals and purges
/// between the registrations.
pub fn mixed(rt: &impl TestHost, alloc: Global, from: u16, count: u16) -> Vec<Command> {
    let mut commands = room(rt, alloc, 400);
    for block in 0..count.div_ceil(MOST) {
        let salt = (block % 7).saturating_mul(37);
        add_block(rt, alloc, &mut commands, (from, count), block, salt);
        add_between(rt, &mut commands, block);
    }
    commands
}

/// Applies a command. Where memory is refused, it is asked for once more.
fn apply(rt: &impl TestHost, db: &mut PathDb, command: &Command) {
    let applied = match db.apply(command) {
        Err(_) => db.apply(command),
        applied => applied,
    };
    if applied.is_err() {
        rt.fail("out of memory");
    }
}

/// Applies commands, one after the other.
pub fn fold(rt: &impl TestHost, db: &mut PathDb, commands: &[Command]) {
    for command in commands {
        apply(rt, db, command);
    }
}
