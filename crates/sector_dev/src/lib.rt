//! Devices of 512-byte sectors: a contract for the contents at every moment, including a stop
//! within a call, and two devices that satisfy it: one in memory, and one over a file.
//!
//! To the layer above: the contract of each call of `Device` states how the call changes what reads
//! return and what a stop may leave, where the device is honest. `proofs/Stretches.antt` has lemmas
//! for several calls, one after the other.
#![tactic(auto)]

mod counted_file;
mod device;
mod file_calls;
mod file_device;
mod ghosts;
mod last_fault;
mod mem_device;
mod positioned_file;
mod system_calls;
mod transfers;

pub use byte_lists::SECTOR;
pub use counted_file::{CountedFile, SystemFile};
pub use device::{DevError, Device};
pub use file_calls::{FileCalls, FileStatus};
pub use file_device::FileDevice;
pub use ghosts::trail::{HoldsBytes, Trail, fresh_trail, trail_over, trail_synced, trail_wrote};
pub use last_fault::{FaultKind, FileFault, LastFault};
pub use mem_device::MemDevice;
pub use positioned_file::PositionedFile;
