//! An area that was worked through by hand: three rows under the types 1, 2 and 3, each of one
//! segment.

use std::alloc::Global;
use std::test::Fail;
use test_support::SEGMENT;

/// The bytes before the rows: PCKP, version 2, epoch 7, place 258, and 3 rows in 279 bytes.
const FRONT: [u8; 32] = [
    0x50, 0x43, 0x4b, 0x50, 0, 0, 0, 2, // the magic, the version
    0, 0, 0, 0, 0, 0, 0, 7, // the epoch
    0, 0, 0, 0, 0, 0, 1, 2, // the place
    0, 0, 1, 0x17, 0, 0, 0, 3, // the bytes of the rows, their count
];

/// The front of the area of a new store: version 2, epoch 1, place 0, no rows.
pub(crate) const FRESH: [u8; 32] = [
    0x50, 0x43, 0x4b, 0x50, 0, 0, 0, 2, // the magic, the version
    0, 0, 0, 0, 0, 0, 0, 1, // the epoch
    0, 0, 0, 0, 0, 0, 0, 0, // the place
    0, 0, 0, 0, 0, 0, 0, 0, // no rows
];

/// The offset at which the rows end.
pub(crate) const END: usize = 311;

/// The area of the three rows, each of 93 bytes.
pub(crate) fn area(alloc: Global) -> Result<Vec<u8>, Fail> {
    let mut area = Vec::from_slice(alloc, &FRONT)?;
    for kind in [1, 2, 3] {
        area.extend_from_slice(&[kind, 0, 0, 0, 88])?;
        area.extend_from_slice(&SEGMENT)?;
    }
    area.resize(512, 0)?;
    Ok(area)
}

/// The area with another byte at a place.
pub(crate) fn changed(alloc: Global, at: usize, byte: u8) -> Result<Vec<u8>, Fail> {
    let mut area = area(alloc)?;
    if let Some(old) = area.get_mut(at) {
        *old = byte;
    }
    Ok(area)
}

/// The rows of such an area.
pub(crate) fn rows_of(area: &[u8]) -> &[u8] {
    area.get(32..END).unwrap_or(&[])
}
