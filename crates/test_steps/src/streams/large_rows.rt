//! A half of large rows, whose area has several pieces, with a sealed journal.
//!
//! A large segment has 16,384 bytes and its record 16,389. It was made some seconds after the first
//! of its kind, which was made 128 seconds before the worked one.

use crate::streams::commands::{add, fold, removal_of, room};
use crate::streams::sealed::sealed_half;
use path_db::{Command, PathDb};
use sector_dev::MemDevice;
use std::alloc::Global;
use test_group_scripts::stores::{Contents, large};
use test_support::{EXPIRY, TestHost};

/// The rows of 1 to 20, of which those of 9 to 16 were made earlier: 327,780 bytes, in 641 sectors
/// with what is before them.
pub fn large_olds(rt: &impl TestHost, alloc: Global) -> Vec<Command> {
    let mut commands = room(rt, alloc, 3);
    add(
        rt,
        &mut commands,
        large(rt, alloc, &[1, 2, 3, 4, 5, 6, 7, 8], 2),
    );
    let earlier = large(rt, alloc, &[9, 10, 11, 12, 13, 14, 15, 16], 0);
    add(rt, &mut commands, earlier);
    add(rt, &mut commands, large(rt, alloc, &[17, 18, 19, 20], 2));
    commands
}

/// A moment at which those that were made earlier have expired, and no other.
const EARLIER: u64 = EXPIRY - 255;

/// Two rows are replaced and two are new, one is removed, and a purge drops the earlier eight.
pub fn large_commands(rt: &impl TestHost, alloc: Global) -> Vec<Command> {
    let mut commands = room(rt, alloc, 3);
    add(rt, &mut commands, large(rt, alloc, &[3, 7, 21, 25], 3));
    add(
        rt,
        &mut commands,
        removal_of(rt, &large(rt, alloc, &[5], 2)),
    );
    add(rt, &mut commands, Command::Purge(EARLIER));
    commands
}

/// What such a store has: 20 rows, and 2, without 1 and 8.
pub const LARGE_CONTENTS: Contents = Contents {
    rows: 13,
    bytes: 13 * 16_389,
    place: 3,
};

/// A store of version 2 whose first half has these rows, with a sealed journal of these commands.
pub fn large_half(rt: &impl TestHost, alloc: Global) -> MemDevice {
    let mut db = PathDb::new(alloc);
    fold(rt, &mut db, &large_olds(rt, alloc));
    sealed_half(rt, alloc, &db, &large_commands(rt, alloc))
}
