//! Sums of the bytes of an area's rows, one for each sector, by which a second reading is compared
//! with the first.

ghost use Rattle.std.specs.Prelude.{◌≡◌, ◌≢◌, ◌+◌, ◌<◌, ◌≤◌, ◌^◌, ◌++◌, true, false, length, OnOk};
ghost use Rattle.byte_lists.specs.Content.{part};
ghost use Rattle.ckpt_stream.specs.Sums.{sum_of as sum_in_specs, sums_in, row_bytes_in};

use byte_lists::SECTOR;
use std::alloc::AllocError;
use store_layout::BEFORE_ROWS;

/// The factor of a sum.
const FACTOR: u64 = 6_364_136_223_846_793_005;

/// Adds the sums of this number of sectors, from a sector on, whose bytes of the rows these are.
pub(crate) fn push_sums(
    sums: &mut Vec<u64>,
    first: u64,
    count: u64,
    bytes: &[u8],
) -> Result<(), AllocError>
    requires { first + count < 2 ^ 64 }
    ensures { OnOk result (sums.new.items ≡ sums.old.items ++ sums_in count first bytes.now) }
{
    let (mut sector, mut left, mut bytes) = (first, count, bytes);
    'sectors: while left > 0 {
        let end = row_bytes(sector).min(bytes.len());
        sums.push(sum_of(&bytes[..end]))?;
        bytes = &bytes[end..];
        sector += 1;
        left -= 1;
    }
    Ok(())
}

/// Whether sectors whose bytes of the rows these are have the sums that were kept of them.
pub(crate) fn have_sums(sums: &[u64], first: u64, count: u64, bytes: &[u8]) -> bool
    requires { first + count ≤ length sums.now }
    ensures equal { result ≡ true → part first count sums.now ≡ sums_in count first bytes.now }
    ensures other { result ≡ false → part first count sums.now ≢ sums_in count first bytes.now }
{
    let (mut sector, mut left, mut bytes) = (first, count, bytes);
    'sectors: while left > 0 {
        let end = row_bytes(sector).min(bytes.len());
        if sums[sector as usize] != sum_of(&bytes[..end]) {
            return false;
        }
        bytes = &bytes[end..];
        sector += 1;
        left -= 1;
    }
    true
}

/// The number of bytes of the rows in a sector, where the rows go on after it.
fn row_bytes(sector: u64) -> usize
    ensures { result ≡ row_bytes_in sector }
{
    if sector == 0 {
        SECTOR - BEFORE_ROWS
    } else {
        SECTOR
    }
}

/// The sum of bytes.
fn sum_of(bytes: &[u8]) -> u64
    ensures { result ≡ sum_in_specs bytes.now }
{
    let mut sum: u64 = 0;
    for byte in bytes {
        sum = sum.wrapping_mul(FACTOR).wrapping_add(u64::from(*byte));
    }
    sum
}
