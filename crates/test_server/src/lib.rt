//! Tests of `path_server` over the loopback.
#![tactic(auto)]

#[cfg(test)]
mod server;
