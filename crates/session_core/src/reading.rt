//! Reading a source to its end.

ghost use Rattle.std.specs.Prelude.{◌≡◌, length, IfOk, IfErr};
ghost use Rattle.session_core.specs.Source.{IsAllRead};

use crate::error::FrameError;
use crate::source::{MOST_PIECE, Source, read_once};
use std::alloc::Global;

/// Reads a source to its end, in at most `turns` reads. The error is `Read`, `NoMemory`, or `Turns`
/// after the last allowed read.
pub fn read_all<R: Source>(alloc: Global, reader: &mut R, turns: u64) -> Result<Vec<u8>, FrameError>
    ensures { IsAllRead R.gives turns reader.old reader.new (R.is_at_end reader.new) result }
{
    let mut piece = new_piece(alloc)?;
    read_pieces(alloc, reader, piece.as_mut_slice(), turns)
}

/// Reads a source to its end, with a buffer for one read.
fn read_pieces<R: Source>(
    alloc: Global,
    reader: &mut R,
    piece: &mut [u8],
    turns: u64,
) -> Result<Vec<u8>, FrameError>
    requires { length piece.old ≡ MOST_PIECE }
    ensures { IsAllRead R.gives turns reader.old reader.new (R.is_at_end reader.new) result }
{
    let mut bytes = Vec::new(alloc);
    for _turn in 0..turns {
        let len = read_once(reader, piece)?;
        if len == 0 {
            return Ok(bytes);
        }
        if bytes.extend_from_slice(piece.split_at(len).0).is_err() {
            return Err(FrameError::NoMemory);
        }
    }
    Err(FrameError::Turns)
}

/// A buffer for one read.
fn new_piece(alloc: Global) -> Result<Vec<u8>, FrameError>
    ensures ok { IfOk result (λ piece. length piece.items ≡ MOST_PIECE) }
    ensures err { IfErr result (λ e. e ≡ FrameError.NoMemory) }
{
    Vec::from_elem(alloc, 0, MOST_PIECE).map_err(|_| FrameError::NoMemory)
}
