//! Devices and files in memory for tests: devices that stop, tear a write or fail a call where a
//! test wants it, a gate before each sync, and files whose transfers are short.
//!
//! To the layer above, each is a `Device` or a `FileCalls` of `sector_dev`, with contracts that say
//! which call fails and what a stop leaves.
#![tactic(auto)]

mod cached_file;
mod fault_device;
mod fuse_device;
mod held_device;
mod mem_file;

pub use cached_file::CachedFile;
pub use fault_device::FaultDevice;
pub use fuse_device::{FuseDevice, Tear};
pub use held_device::{Gate, HeldDevice};
pub use mem_file::MemFile;
