//! Making the next piece of a checkpoint.

ghost use Rattle.std.specs.Prelude.{◌≡◌, ◌+◌, ◌-◌, ◌*◌, ◌<◌, ◌≤◌, length, take, drop, min, List, ℕ, IfErr, OnErr, OnOk};
ghost use Rattle.byte_lists.specs.Content.{part};
ghost use Rattle.byte_lists.specs.Sectors.{padded};
ghost use Rattle.byte_lists.specs.declared.format.TheConstants.{SECTOR};
ghost use Rattle.ckpt_stream.specs.Rewriting.{untaken, untaken_len, edits_end};
ghost use Rattle.path_records.specs.declared.format.TheConstants.{PIECE};
ghost use Rattle.store_layout.specs.declared.format.TheConstants.{BEFORE_ROWS};
ghost use Rattle.ckpt_stream.specs.Merge.{IsReady, LooksForPiece, MakesOn};
ghost use Rattle.ckpt_stream.specs.Sums.{row_offset, rows_in_window, sums_in, AreSummed};
ghost use Rattle.ckpt_stream.specs.declared.error.PieceError.TheVariants.{Damaged as IsDamaged};
ghost use Rattle.sector_dev.specs.Disk.{IsHonest, reads_of};
ghost use Rattle.byte_lists.specs.Sectors.{sectors_of};
ghost use Rattle.ckpt_stream.specs.Making.{WhyRewritten};

use crate::error::PieceError;
use crate::merge::PIECE_SECTORS;
use crate::old_area::read_sectors;
use crate::rewrite::Rewrite;
use crate::sums::have_sums;
use byte_lists::SECTOR;
use path_records::PIECE;
use sector_dev::Device;
use store_layout::BEFORE_ROWS;

/// The fewest sectors that are read at a time, where the rows have as many: 2 KiB. Short runs of
/// bytes that are kept near each other are read together, and long runs of bytes that are left out
/// are not read.
const LEAST_READ: u64 = 4;

/// Makes the next piece of a checkpoint from the rows of an area, which have `size` bytes: it reads
/// at most 256 sectors of the area at a time, until a whole piece is made or nothing is left to be
/// made. Sectors that have other sums than were kept of them are `Damaged`, and nothing is made of
/// them.
pub(crate) fn make_piece<D: Device>(
    device: &mut D,
    area: u64,
    size: u32,
    sums: &[u64],
    rewrite: &mut Rewrite,
    window: &mut [u8],
) -> Result<(), PieceError>
    requires window { length window.old ≡ PIECE }
    requires room { SECTOR * area + BEFORE_ROWS + size ≤ SECTOR * (D.disk device.old).sectors }
    requires end { edits_end rewrite.old ≡ size }
    requires sums { length sums.now ≡ sectors_of (BEFORE_ROWS + size) }
    ensures looks { LooksForPiece result (D.disk device.old) (D.disk device.new) }
    ensures window { length window.new ≡ PIECE }
    ensures end { edits_end rewrite.new ≡ size }
    ensures made { MakesOn (D.disk device.old) area size rewrite.old rewrite.new }
    ensures ready { OnOk result (IsReady rewrite.new) }
    ensures damaged { IfErr result (λ e. e ≡ IsDamaged → IsHonest (D.disk device.old)
        → ¬ AreSummed sums.now (part (SECTOR * area + BEFORE_ROWS) size (reads_of (D.disk device.old)))) }
{
    rewrite.rewrite(0, &window[..0]);
    'pieces: loop {
        let Some(at) = rewrite.wanted() else {
            return Ok(());
        };
        let first = (at + BEFORE_ROWS as u64) / SECTOR as u64;
        let wanted = (rewrite.left_to_keep() as usize).min(PIECE - rewrite.made().len());
        let count = count_wanted(at, size, first, wanted);
        read_sectors(device, area + first, count, window)?;
        rewrite_sectors(rewrite, size, sums, first, count, window)?;
    }
}

/// The number of sectors to read from `first` on, the one with the offset `at` in the rows: enough
/// for the bytes that are wanted from there on, at least four and at most 256, but none past the
/// rows.
fn count_wanted(at: u64, size: u32, first: u64, wanted: usize) -> u64
    requires at { at < size }
    requires first { SECTOR * first ≤ at + BEFORE_ROWS }
    requires last { at + BEFORE_ROWS < SECTOR * first + SECTOR }
    requires wanted { wanted ≤ PIECE }
    ensures some { 1 ≤ result }
    ensures most { result ≤ 256 }
    ensures inside { SECTOR * (first + result) < BEFORE_ROWS + size + SECTOR }
{
    let sector = SECTOR as u64;
    let before = at + BEFORE_ROWS as u64 - sector * first;
    let enough = (before + wanted as u64 + (sector - 1)) / sector;
    let left = (BEFORE_ROWS as u64 + u64::from(size) + (sector - 1)) / sector - first;
    enough.max(LEAST_READ).min(left).min(PIECE_SECTORS)
}

/// Makes what it can from sectors of an area, which are in a window, where they have the sums that
/// were kept of them. Else nothing is made.
fn rewrite_sectors(
    rewrite: &mut Rewrite,
    size: u32,
    sums: &[u64],
    first: u64,
    count: u64,
    window: &[u8],
) -> Result<(), PieceError>
    requires some { 1 ≤ count }
    requires window { SECTOR * count ≤ length window.now }
    requires inside { SECTOR * first ≤ BEFORE_ROWS + size }
    requires sums { length sums.now ≡ sectors_of (BEFORE_ROWS + size) }
    requires summed { first + count ≤ length sums.now }
    ensures compared { OnOk result (part first count sums.now ≡ sums_in count first (rows_in_window size first count window.now)) }
    ensures damaged { OnErr result ((area : ℕ) (reads : List ℕ) → take (SECTOR * count) window.now ≡ part (SECTOR * (area + first)) (SECTOR * count) reads
        → length (part (SECTOR * area + BEFORE_ROWS) size reads) ≡ size → ¬ AreSummed sums.now (part (SECTOR * area + BEFORE_ROWS) size reads)) }
    ensures refused { IfErr result (λ e. e ≡ IsDamaged) }
    ensures same { (area : ℕ) (reads : List ℕ) → take (SECTOR * count) window.now ≡ part (SECTOR * (area + first)) (SECTOR * count) reads
        → untaken rewrite.new (part (SECTOR * area + BEFORE_ROWS) size reads) ≡ untaken rewrite.old (part (SECTOR * area + BEFORE_ROWS) size reads) }
    ensures len { untaken_len rewrite.new ≡ untaken_len rewrite.old }
    ensures end { edits_end rewrite.new ≡ edits_end rewrite.old }
    ensures forward { rewrite.old.position ≤ rewrite.new.position }
    ensures stops { OnOk result (WhyRewritten (SECTOR * first) (min (SECTOR * (first + count)) (BEFORE_ROWS + size)) rewrite.new) }
{
    let rows = row_part(window, size, first, count);
    if !have_sums(sums, first, count, rows) {
        return Err(PieceError::Damaged);
    }
    let from = (SECTOR as u64 * first).saturating_sub(BEFORE_ROWS as u64);
    rewrite.rewrite(from, rows);
    Ok(())
}

/// The bytes of the rows of an area, which have `size` bytes, in sectors that are in a window.
pub(crate) fn row_part(window: &[u8], size: u32, first: u64, count: u64) -> &[u8]
    requires some { 1 ≤ count }
    requires window { SECTOR * count ≤ length window.now }
    requires inside { SECTOR * first ≤ BEFORE_ROWS + size }
    ensures is { result.now ≡ rows_in_window size first count window.now }
    ensures len { length result.now ≡ min (row_offset (first + count)) size - row_offset first }
    ensures shown { (area : ℕ) (reads : List ℕ) → take (SECTOR * count) window.now ≡ part (SECTOR * (area + first)) (SECTOR * count) reads
        → take (length result.now) (drop (row_offset first) (part (SECTOR * area + BEFORE_ROWS) size reads)) ≡ result.now }
{
    let head = BEFORE_ROWS as u64;
    let offset = SECTOR as u64 * first;
    let start = head - offset.min(head);
    let to = (SECTOR as u64 * count).min(head + u64::from(size) - offset);
    &window[start as usize..to as usize]
}

/// Puts the next piece of what is made into a window: at most 131,072 bytes, with zeros up to a
/// whole sector. Returns the number of these bytes.
pub(crate) fn put_piece(window: &mut [u8], made: &[u8]) -> usize
    requires { length window.old ≡ PIECE }
    ensures piece { take result window.new ≡ padded (take PIECE made.now) }
    ensures size { result ≡ length (padded (take PIECE made.now)) }
    ensures window { length window.new ≡ PIECE }
{
    let size = made.len().min(PIECE);
    let whole = (size + (SECTOR - 1)) / SECTOR * SECTOR;
    window[..size].copy_from_slice(&made[..size]);
    window[size..whole].fill(0);
    whole
}
