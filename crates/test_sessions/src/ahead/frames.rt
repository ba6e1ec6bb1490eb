//! Frames of commands, and their acknowledgements.

use crate::bytes::push;
use crate::service::frames::register_by;
use std::process::Abort;
use test_hub_scripts::folds::{Act, IDS, LAST_MOMENT};

/// How many bytes an acknowledgement has: its length, its kind, its place and four counts.
pub(crate) const ACK: usize = 29;

/// The kinds of the messages.
const REGISTER_KIND: u8 = 1;

const PURGE_KIND: u8 = 3;

const REMOVE_KIND: u8 = 4;

/// What is added to the kind of a message in its acknowledgement.
const ACKNOWLEDGED: u8 = 0x80;

/// The frame of a purge up to a moment.
fn purge(moment: u64) -> [u8; 13] {
    let mut frame = [0; 13];
    frame[3] = 9;
    frame[4] = PURGE_KIND;
    let (_head, rest) = frame.split_at_mut(5);
    rest.copy_from_slice(&moment.to_be_bytes());
    frame
}

/// The frame of the removal of a down segment.
fn removal(id: &[u8; 32]) -> [u8; 38] {
    let mut frame = [0; 38];
    frame[3] = 0x22;
    frame[4] = REMOVE_KIND;
    frame[5] = 2;
    let (_head, rest) = frame.split_at_mut(6);
    rest.copy_from_slice(id);
    frame
}

/// Adds the frame of a command to others.
pub(crate) fn push_frame(rt: &impl Abort, frames: &mut Vec<u8>, act: Act) {
    match act {
        Act::Register(number) => {
            push(rt, frames, &register_by(number.wrapping_add(1)));
        }
        Act::Remove(number) => {
            for id in IDS.iter().skip(usize::from(number)).take(1) {
                push(rt, frames, &removal(id));
            }
        }
        Act::PurgeNothing => push(rt, frames, &purge(0)),
        Act::PurgeAll => push(rt, frames, &purge(LAST_MOMENT)),
    }
}

/// The first bytes of a command's acknowledgement: its length and its kind.
pub(crate) fn head_of(act: Act) -> [u8; 5] {
    let kind = match act {
        Act::Register(_) => REGISTER_KIND,
        Act::Remove(_) => REMOVE_KIND,
        Act::PurgeNothing | Act::PurgeAll => PURGE_KIND,
    };
    [0, 0, 0, 0x19, ACKNOWLEDGED | kind]
}

/// The acknowledgement of a purge at this place, which drops nothing.
pub(crate) fn purged(place: u8) -> [u8; ACK] {
    let mut frame = [0; ACK];
    frame[3] = 0x19;
    frame[4] = ACKNOWLEDGED | PURGE_KIND;
    frame[12] = place;
    frame
}

/// The number in these bytes, the greatest first.
pub(crate) fn number_of(bytes: &[u8]) -> u64 {
    bytes.iter().fold(0, |number: u64, byte| {
        number.wrapping_mul(256).wrapping_add(u64::from(*byte))
    })
}
