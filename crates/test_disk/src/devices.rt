//! Tests of `sector_dev` and `device_files`, and one of `byte_lists`, a module for each subject.
//! They check what no contract states: that calls succeed, the contents after a stop at every call
//! against a table made by hand, real files and devices of the system, which of them can be opened
//! at the same time, and the order of refusals.

mod calls;
mod changed_files;
mod devices;
mod faults;
mod files;
mod fuses;
mod gates;
mod holders;
mod openings;
mod sectors;
mod system_files;
