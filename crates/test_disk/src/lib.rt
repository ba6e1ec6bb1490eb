//! Tests of a store at rest: devices, the two parts of a half, and the opening of a store. They see
//! what no clause says: bytes that were worked out by hand, files and devices of the system, and
//! what is answered where a call of a device fails or memory is refused.
#![tactic(auto)]

#[cfg(test)]
mod checks;
#[cfg(test)]
mod devices;
#[cfg(test)]
mod halves;
#[cfg(test)]
mod host;
#[cfg(test)]
mod openings;
