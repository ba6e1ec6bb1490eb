//! Laws of checkpoints of the database. Each law is the contract of a function that does nothing.

ghost use Rattle.ckpt_pair.specs.Checkpoint.{DatabasesAreStorable, DatabasesCanBeCheckpoints, ReadCheckpointsAreDatabases};
ghost use Rattle.ckpt_pair.specs.Reading.{AreReadByTheirFronts};
ghost use Rattle.ckpt_pair.specs.Stream.{StreamsBeginRows, StreamsReadHalves};

/// Every database can be read again from its records, and can be in a checkpoint where its records
/// have less than 4 GiB.
pub fn databases_can_be_checkpoints()
    ensures storable { DatabasesAreStorable }
    ensures can { DatabasesCanBeCheckpoints }
{}

/// The rows of a checkpoint that is read are a database.
pub fn read_checkpoints_are_databases()
    ensures { ReadCheckpointsAreDatabases }
{}

/// A checkpoint is its front and its rows, and the front depends on the first 32 bytes of the area
/// alone.
pub fn checkpoints_are_read_by_their_fronts()
    ensures { AreReadByTheirFronts }
{}

/// The rows that a stream has returned are the first of those that all bytes of the rows are read
/// as. Where these bytes are an area's from the rows on, with the size and the count of its front,
/// they are read as the checkpoint that `read_half` returns.
pub fn streams_read_halves()
    ensures begin { StreamsBeginRows }
    ensures halves { StreamsReadHalves }
{}
