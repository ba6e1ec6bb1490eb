//! The guarded calls that use the device.

/// A guarded call that uses the device, by the step that makes it.
#[derive(Clone, Copy, Debug, PartialEq, Eq)]
pub enum DeviceCall {
    /// The flusher writes the payload of a group or of a seal, and the next gate.
    WriteGroup,
    /// The flusher syncs them.
    SyncGroup,
    /// The flusher writes their gate open.
    OpenGate,
    /// The flusher syncs that gate.
    SyncGate,
    /// The flusher writes the payload of the group that follows, and the next gate.
    WriteFollowing,
    /// The flusher syncs them, and the gate of the group in flight.
    SyncFollowed,
    /// The checkpointer reads a piece of the sealed half, or plans the new checkpoint.
    Begin,
    /// The checkpointer writes a chunk of the new checkpoint.
    WriteChunk,
    /// The checkpointer syncs the new checkpoint.
    SyncChunks,
    /// The checkpointer writes the gate of the new half open.
    OpenHalf,
    /// The checkpointer syncs that gate.
    SyncHalf,
    /// The checkpointer writes the gates of the old half closed.
    CloseHalf,
    /// The checkpointer syncs them.
    SyncClose,
}
