//! Laws of first sectors and checkpoints, in any format of rows of databases of type `Db`. Each law
//! is the contract of a function that does nothing.

ghost use Rattle.store_layout.specs.CheckpointLaws.{IsStoreReadSo, FirstSectorMakesStore, IsHeadReadSo, IsHeadRefusedSo, HeadGoesByItsFront, BeginsWithItsHead, IsCheckpointReadSo, WrittenCheckpointIsThere, PiecesAreWritten, WholeEncodingIsThere, FirstCheckpointCanBe};

/// An image is read as a store's exactly where it is one.
pub fn first_sectors_are_read()
    ensures read { IsStoreReadSo }
    ensures written { FirstSectorMakesStore }
{}

/// A head is read exactly where the area begins with it and its version is known, and is refused
/// exactly where the definition of the refusal holds. It depends on the first 24 bytes alone.
pub fn heads_are_read()
    ensures read { IsHeadReadSo }
    ensures refused { IsHeadRefusedSo }
    ensures front { HeadGoesByItsFront }
{}

/// A checkpoint is read exactly where the area begins with it and its version is known. It begins
/// with its head.
pub fn checkpoints_are_read<Db>()
    ensures read { IsCheckpointReadSo Db }
    ensures head { BeginsWithItsHead Db }
{}

/// An area begins with a checkpoint after it is written there, in one piece or in several.
pub fn checkpoints_are_written<Db>()
    ensures there { WrittenCheckpointIsThere Db }
    ensures pieces { PiecesAreWritten }
    ensures whole { WholeEncodingIsThere Db }
{}

/// The checkpoint of a new store can be written.
pub fn first_checkpoints_can_be<Db, C>()
    ensures { FirstCheckpointCanBe Db C }
{}
