//! Tests of sessions that send commands ahead over a hub, through `path_session`. They see what no
//! clause says: that the places of sessions beside each other are those of one order, in which each
//! command did what it was answered with, which refusal is replied between which acknowledgements,
//! and what a session leaves that breaks off.

mod ahead;
mod broken;
mod crowds;
mod frames;
mod memory;
mod turns;
