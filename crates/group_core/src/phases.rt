//! The phases of commit values: each is the type of its value.

/// A group or a seal is staged.
#[derive(Clone, Copy)]
pub struct AtStaged;

/// The group or the seal was written after the tail's gate.
#[derive(Clone, Copy)]
pub struct AtWritten;

/// The group or the seal was synced.
#[derive(Clone, Copy)]
pub struct AtStable;

/// The tail's gate was written open.
#[derive(Clone, Copy)]
pub struct AtOpened;

/// The gate is synced.
#[derive(Clone, Copy)]
pub struct AtDurable;

/// A group that follows the group in flight is staged, and the tail's gate was written open.
#[derive(Clone, Copy)]
pub struct AtFollowing;

/// The following group was written after the gate that ends the group in flight.
#[derive(Clone, Copy)]
pub struct AtFollowed;

/// The tail's gate and the following group are synced.
#[derive(Clone, Copy)]
pub struct AtDurableFollowed;

/// A checkpoint is being written.
#[derive(Clone, Copy)]
pub struct AtPlan {
    /// Whether all of the checkpoint is written.
    pub done: bool,
}

/// A checkpoint is synced.
#[derive(Clone, Copy)]
pub struct AtLaid;

/// The new half's gate was written open.
#[derive(Clone, Copy)]
pub struct AtSwitched;

/// The gate is synced.
#[derive(Clone, Copy)]
pub struct AtLive;

/// The old half's gates were written closed.
#[derive(Clone, Copy)]
pub struct AtClosing;
