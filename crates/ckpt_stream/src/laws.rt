//! Laws of the rows after commands. Each law is the contract of a function that does nothing.

ghost use Rattle.ckpt_stream.specs.Laws.{MergesAreFolds, KeysMakeFolds, PlansMakeFolds};
ghost use Rattle.ckpt_stream.specs.Chunks.{PiecesFollow, LastPieceEnds};

use path_db::{commands_keep_database, database_is_canonical, keys_are_separate};

/// The rows after commands are the rows before, merged with the rows that are left under the keys
/// that the commands name.
pub fn merges_are_folds()
    ensures { MergesAreFolds }
{
    keys_are_separate();
    database_is_canonical();
    commands_keep_database();
}

/// The rows that are left under the keys of both sides, in the order of the keys, are the rows
/// after commands.
pub fn keys_make_folds()
    ensures { KeysMakeFolds }
{
    keys_are_separate();
    database_is_canonical();
    commands_keep_database();
}

/// Edits that were planned for rows turn their records into the records of the rows after commands.
pub fn plans_make_folds()
    ensures { PlansMakeFolds }
{
    merges_are_folds();
}

/// Of bytes that are written in pieces of 256 sectors, the first 131,072 bytes that are made and
/// not written are the next piece. Where nothing is left to be made, all bytes that are made,
/// filled up with zeros, are the last piece.
pub fn pieces_follow()
    ensures next { PiecesFollow }
    ensures last { LastPieceEnds }
{}
