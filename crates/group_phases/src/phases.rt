//! The phases of the two actors.

/// How far the flusher is with the group or seal that it has staged.
///
/// Each arrow is a call that succeeds. A call that fails leaves the phase as it is, except a write
/// of the tail's gate:
///
/// ```text
/// Resting --stage--> Staged --write_group--> Written --sync_group--> Stable --open_gate--> Opened
///    ^                                                                 |                     |
///    |                                     Doubtful <--open_gate fails-'                 sync_gate
///    |                                                                                       v
///    '--publish--------------------------------------------------------------------------- Durable
///
/// Opened --follow--> Following --write_following--> Followed --sync_followed--> DurableFollowed
///                                                                                    |
/// Stable <--publish_followed---------------------------------------------------------'
/// ```
///
/// The second picture is the way of a group that is followed: the next group is written before the
/// gate of the group in flight is synced. One sync then makes that gate durable and the next group
/// stable, and publishing leaves the next group in flight.
///
/// In each phase the groups that are committed are in the tail's journal, clean. What else holds of
/// an honest device there:
///
/// ```text
///            the tail's gate   what is in flight, after it   a stop keeps of what is in flight
/// Resting    closed*           nothing is in flight           -
/// Staged     closed*           anything may be there          nothing
/// Written    closed*           it is there                    nothing
/// Stable     closed*           it is there*                   nothing
/// Opened     open              it is there*                   nothing or all
/// Doubtful   open or closed    it is there*                   nothing or all
/// Durable    open*             it is there*                   all
/// ```
///
/// The following group is written after the gate that ends the group in flight. That gate is closed
/// and clean from `Stable` on, so a stop keeps nothing of the following group:
///
/// ```text
///                   the tail's gate, what is in flight, what a stop keeps   the following group
/// Following         as at Opened                                            anything may be there
/// Followed          as at Opened                                            it is there
/// DurableFollowed   as at Durable                                           it is there*
/// ```
///
/// `*`: and clean, which says that no write was made there since the last sync that succeeded: so
/// it is in every image.
#[derive(Clone, Copy, Debug, PartialEq, Eq)]
pub enum Flush {
    /// Nothing is in flight.
    Resting,
    /// The bytes to write are made.
    Staged,
    /// The bytes were written after the tail's gate.
    Written,
    /// A sync after the write succeeded.
    Stable,
    /// The tail's gate was written open.
    Opened,
    /// The write of the tail's gate failed.
    Doubtful,
    /// A sync after the gate's write succeeded.
    Durable,
    /// The tail's gate was written open, and the bytes to write of the following group are made.
    Following,
    /// The following group was written after the gate that ends the group in flight.
    Followed,
    /// A sync after both writes succeeded: the gate's and the following group's.
    DurableFollowed,
}

/// How far the checkpointer is.
///
/// Each arrow is a call that succeeds; `write_chunk` leaves the phase `Planned`. A call that fails
/// leaves the phase as it is, except a write of a half's gate:
///
/// ```text
/// Ready --publish of a seal--> Sealed --begin--> Planned --sync_chunks--> Laid
///   ^                                                                      |
///   |                                SwitchFailed <--open_half fails-------|
///   |                                                                      |
///   |              Live <--sync_half-- Switched <--open_half---------------'
///   |                |
///   |                |--close_half fails--> CloseFailed
///   |                |
///   |                '--close_half--> Closing --sync_close--.
///   |                                                       |
///   '-------------------------------------------------------'
/// ```
///
/// What holds of an honest device then, of the half that has the tail and of the other one:
///
/// ```text
///               the tail's half           the other half                              in use
///               gate      area            gate     area         journal               after a stop
/// Ready         open*     checkpoint*     closed*  anything     first gate closed*    the tail's
/// Sealed        closed*   anything        open*    checkpoint*  groups and a seal*    the other
/// Planned       closed*   first sectors   open*    checkpoint*  groups and a seal*    the other
/// Laid          closed*   new checkpoint* open*    checkpoint*  groups and a seal*    the other
/// Switched      open      new checkpoint* open*    checkpoint*  groups and a seal*    either
/// SwitchFailed  either    new checkpoint* open*    checkpoint*  groups and a seal*    either
/// Live          open*     new checkpoint* any      older head*  anything              the tail's
/// Closing       open*     new checkpoint* closed   older head*  first gate closed     the tail's
/// CloseFailed   open*     new checkpoint* any      older head*  anything              the tail's
/// ```
///
/// `*`: and clean, as above. At `SwitchFailed` the gate is open or closed. Where either half may be
/// in use, both have the same rows. The new checkpoint is the other half's, with the commands of
/// its journal applied, in the next epoch; an older head is one of a smaller epoch than the new
/// checkpoint's, which is why that half is in use no more.
#[derive(Clone, Copy, Debug, PartialEq, Eq)]
pub enum Check {
    /// The half without the tail is closed, and so is its journal.
    Ready,
    /// The half without the tail has a sealed journal.
    Sealed,
    /// The new checkpoint is being written.
    Planned,
    /// The new checkpoint is written, and a sync after that succeeded.
    Laid,
    /// The new half's gate was written open.
    Switched,
    /// The write of the new half's gate failed.
    SwitchFailed,
    /// A sync after the gate's write succeeded: the new half counts.
    Live,
    /// The old half's gates were written closed.
    Closing,
    /// The write of the old half's gates failed.
    CloseFailed,
}
