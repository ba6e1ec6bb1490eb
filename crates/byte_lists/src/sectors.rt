//! Sectors of 512 bytes, and padding.

ghost use Rattle.std.specs.Prelude.{◌≡◌, ◌+◌, ◌*◌, ◌<◌, ◌^◌, OnOk, OnErr, vec_len};
ghost use Rattle.byte_lists.specs.Sectors.{sectors_of, padded};
ghost use Rattle.byte_lists.specs.declared.format.TheConstants.{SECTOR};

use crate::format::SECTOR;
use std::alloc::AllocError;

/// The number of sectors that have room for this number of bytes: the quotient by 512, rounded up.
pub fn sector_count(bytes: usize) -> usize
    ensures { result ≡ sectors_of bytes }
{
    let whole = bytes / SECTOR;
    if bytes % SECTOR == 0 {
        whole
    } else {
        whole + 1
    }
}

/// Appends zeros up to a whole number of sectors. Where memory is refused, the bytes are unchanged.
pub fn pad(bytes: &mut Vec<u8>) -> Result<(), AllocError>
    requires { vec_len bytes.old + SECTOR < 2 ^ 64 }
    ensures ok { OnOk result (bytes.new.items ≡ padded bytes.old.items) }
    ensures err { OnErr result (bytes.new.items ≡ bytes.old.items) }
{
    let sectors = sector_count(bytes.len());
    bytes.resize(SECTOR * sectors, 0)
}
