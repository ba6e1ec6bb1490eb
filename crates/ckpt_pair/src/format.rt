//! The numbers of a checkpoint's format.

ghost use Rattle.std.specs.Prelude.{◌≡◌, ◌-◌, ◌*◌};
ghost use Rattle.byte_lists.specs.declared.format.TheConstants.{SECTOR};
ghost use Rattle.store_layout.specs.declared.format.TheConstants.{BEFORE_ROWS};

use byte_lists::SECTOR;
use store_layout::BEFORE_ROWS;

/// The four letters PCKP as one big-endian number: the first four bytes of a checkpoint.
pub const CHECKPOINT_MAGIC: u32 = 0x50434b50;
/// The offset of the version in a checkpoint, four bytes.
pub(crate) const VERSION_AT: usize = 4;
/// The offset of the epoch in a checkpoint, eight bytes.
pub(crate) const EPOCH_AT: usize = 8;
/// The offset of the place in a checkpoint, eight bytes.
pub(crate) const PLACE_AT: usize = 16;
/// The offset of the length of the rows' records in a checkpoint, four bytes.
pub const SIZE_AT: usize = 24;
/// The offset of the number of rows in a checkpoint, four bytes.
pub const COUNT_AT: usize = 28;

/// The bytes of rows for which a checkpoint area of this number of sectors has room: all of its
/// bytes but those before the rows.
pub fn area_room(sectors: u32) -> u64
    ensures { result ≡ SECTOR * sectors - BEFORE_ROWS }
{
    (SECTOR as u64 * u64::from(sectors)).saturating_sub(BEFORE_ROWS as u64)
}
