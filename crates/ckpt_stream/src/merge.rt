//! A checkpoint that is made while it is written.

ghost use Rattle.std.specs.Prelude.{◌≡◌, ◌+◌, ◌*◌, ◌≤◌, length, IfErr, OnOk};
ghost use Rattle.path_records.specs.declared.format.TheConstants.{PIECE};
ghost use Rattle.byte_lists.specs.declared.format.TheConstants.{SECTOR};
ghost use Rattle.sector_dev.specs.Calls.{WriteCall};
ghost use Rattle.store_layout.specs.declared.format.TheConstants.{BEFORE_ROWS};
ghost use Rattle.ckpt_stream.specs.Merge.{encoding_made, next_piece, after_piece, as_write, IsReady, MakesOn};
ghost use Rattle.ckpt_stream.specs.Sums.{AreSummed};
ghost use Rattle.ckpt_stream.specs.declared.error.PieceError.TheVariants.{Damaged as IsDamaged};
ghost use Rattle.sector_dev.specs.Disk.{IsHonest, reads_of};
ghost use Rattle.byte_lists.specs.Content.{part};

use crate::error::PieceError;
use crate::ghosts::note::RowsNote;
use crate::making::{make_piece, put_piece};
use crate::rewrite::Rewrite;
use byte_lists::SECTOR;
use path_records::PIECE;
use sector_dev::Device;
use std::marker::Model;

/// The sectors of a piece of a checkpoint: the most that are written, or read of the old area, at a
/// time.
pub const PIECE_SECTORS: u64 = (PIECE / SECTOR) as u64;

/// The bytes of the window: a piece.
pub(crate) const WINDOW: usize = PIECE;

/// The checkpoint of a half whose journal is sealed, made while it is written. Beside the edits and
/// the rows of the journal's keys it has two buffers: a window of 131,072 bytes, and 147,461 bytes
/// for what is made and not written yet; and a sum of eight bytes for each sector of the old area.
#[derive(Drop)]
pub struct Merge {
    pub(crate) rewrite: Rewrite,
    pub(crate) window: Vec<u8>,
    pub(crate) size: u32,
    pub(crate) sums: Vec<u64>,
    pub(crate) sectors: u64,
    pub(crate) note: RowsNote,
    pub(crate) epoch: u64,
    pub(crate) place: u64,
}

impl Model for Merge {
    ghost use Rattle.ckpt_stream.specs.Merge.{MergeView, merge_view, IsMerge};

    ghost Value = { MergeView };

    ghost view = { merge_view };

    ghost invariant = { IsMerge };
}

impl Merge {
    /// The number of sectors of the whole checkpoint.
    pub fn sectors(&self) -> u64
        ensures { SECTOR * result ≡ length (encoding_made self.now) }
    {
        self.sectors
    }

    /// The lengths in bytes of the window, and of the buffer of what is made. Neither changes as
    /// long as the merge exists.
    pub fn buffer_lens(&self) -> (usize, usize)
        ensures window { result.0 ≡ PIECE }
        ensures made { result.1 ≡ 147461 }
    {
        (self.window.len(), self.rewrite.buffer_len())
    }

    /// Writes the next sectors of the checkpoint, at most 256, from the sector `at` on, and then
    /// makes those after them: it reads the rows of the old area, which begins at the sector
    /// `area`. Sectors of that area that have other sums than when they were planned are `Damaged`,
    /// and nothing is made of them, so that no byte of them is ever written. Where the write or a
    /// read fails, and where a sector is damaged, the merge cannot be used any more. The call takes
    /// no memory.
    pub fn write_next<D: Device>(
        &mut self,
        device: &mut D,
        area: u64,
        at: u64,
    ) -> Result<(), PieceError>
        requires old { SECTOR * area + BEFORE_ROWS + self.old.size ≤ SECTOR * (D.disk device.old).sectors }
        requires new { SECTOR * at + length (next_piece self.old.rewrite) ≤ SECTOR * (D.disk device.old).sectors }
        ensures call { WriteCall at (next_piece self.old.rewrite) (as_write result) (D.disk device.old) (D.disk device.new) }
        ensures kept { self.new ≡ record self.old { rewrite = self.new.rewrite } }
        ensures ready { OnOk result (IsReady self.new.rewrite) }
        ensures made { OnOk result (MakesOn (D.disk device.new) area self.old.size (after_piece self.old.rewrite) self.new.rewrite) }
        ensures damaged { IfErr result (λ e. e ≡ IsDamaged → IsHonest (D.disk device.new)
            → ¬ AreSummed self.old.sums (part (SECTOR * area + BEFORE_ROWS) self.old.size (reads_of (D.disk device.new)))) }
    {
        let count = put_piece(&mut self.window, self.rewrite.made());
        device.write(at, &self.window[..count])?;
        let taken = self.rewrite.made().len().min(PIECE);
        self.rewrite.take(taken);
        make_piece(
            device,
            area,
            self.size,
            &self.sums,
            &mut self.rewrite,
            &mut self.window,
        )
    }
}
