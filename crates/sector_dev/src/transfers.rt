//! Whole reads and writes of a file whose transfers may be short.
ghost use Rattle.std.specs.Prelude.{◌≡◌, ◌+◌, ◌<◌, ◌^◌, length, OnOk};
ghost use Rattle.byte_lists.specs.Content.{part};
ghost use Rattle.sector_dev.specs.PositionedFile.{IsHonestFile, LeavesFile};
ghost use Rattle.sector_dev.specs.FileDevice.{WritesWhole, FailsWithFile};

use crate::PositionedFile;

/// A transfer failed, or moved no byte.
#[derive(Drop)]
pub(crate) struct Incomplete;

/// Fills `into` with the bytes at an offset, in any number of transfers.
pub(crate) fn read_whole<F: PositionedFile>(
    file: &mut F,
    offset: u64,
    into: &mut [u8],
) -> Result<(), Incomplete>
    requires { offset + length into.old < 2 ^ 64 }
    ensures same { LeavesFile (F.state file.old) (F.state file.new) }
    ensures failures { FailsWithFile result (F.state file.old) (F.state file.new) }
    ensures bytes { OnOk result (IsHonestFile (F.state file.old) → into.new ≡ part offset (length into.old) (F.state file.old).bytes) }
{
    let mut done = 0;
    while done < into.len() {
        match file.read_at(offset + done as u64, &mut into[done..]) {
            Ok(0) => return Err(Incomplete),
            Ok(n) => done += n,
            Err(_) => return Err(Incomplete),
        }
    }
    Ok(())
}

/// Writes all these bytes at an offset, in any number of transfers.
pub(crate) fn write_whole<F: PositionedFile>(
    file: &mut F,
    offset: u64,
    bytes: &[u8],
) -> Result<(), Incomplete>
    requires { offset + length bytes.now < 2 ^ 64 }
    ensures failures { FailsWithFile result (F.state file.old) (F.state file.new) }
    ensures writes { WritesWhole offset bytes.now result (F.state file.old) (F.state file.new) }
{
    let mut done = 0;
    while done < bytes.len() {
        match file.write_at(offset + done as u64, &bytes[done..]) {
            Ok(0) => return Err(Incomplete),
            Ok(n) => done += n,
            Err(_) => return Err(Incomplete),
        }
    }
    Ok(())
}
