//! Files that are read and written at offsets.
ghost use Rattle.std.specs.Prelude.{◌≡◌, ◌+◌, ◌<◌, ◌^◌, length, IfOk, IsTrue};
ghost use Rattle.byte_lists.specs.Content.{AreBytes};
ghost use Rattle.sector_dev.specs.PositionedFile.{FileState, IsHonestFile, LeavesFile, SyncsFile, TransfersOut, TransfersIn};

use std::io;

/// A file whose transfers start at an offset in bytes and may be short. It counts its failures: the
/// transfers that failed or moved none of some bytes, and the syncs that failed.
pub trait PositionedFile {
    /// The file as contracts see it.
    ghost state: { Self → FileState };

    /// The length of the file in bytes.
    fn size(&mut self) -> io::Result<u64>
        ensures same { LeavesFile (state self.old) (state self.new) }
        ensures failures { (state self.new).failures ≡ (state self.old).failures }
        ensures size { IsHonestFile (state self.old) → IfOk result (λ n. n ≡ length (state self.old).bytes) };

    /// Reads into the first bytes of `into`, and returns their number. 0 means the end of the file.
    fn read_at(&mut self, offset: u64, into: &mut [u8]) -> io::Result<usize>
        ensures out { TransfersOut offset into.new result (state self.old) (state self.new) };

    /// Writes the first of these bytes, and returns their number.
    fn write_at(&mut self, offset: u64, bytes: &[u8]) -> io::Result<usize>
        ensures into { TransfersIn offset bytes.now result (state self.old) (state self.new) };

    /// Brings the bytes that were written to stable storage.
    fn sync_data(&mut self) -> io::Result<()>
        ensures sync { SyncsFile result (state self.old) (state self.new) };

    ghost bytes: { (file : Self) → IsHonestFile (state file) → AreBytes (state file).bytes };
}
