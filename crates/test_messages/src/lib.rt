//! Tests of messages, of the rows that they become, and of lookups. They check what no contract
//! states: values from outside, that calls succeed where memory suffices, and what is there where
//! memory is refused.
#![tactic(auto)]

#[cfg(test)]
mod checks;
#[cfg(test)]
mod host;
#[cfg(test)]
mod lookups;
#[cfg(test)]
mod messages;
#[cfg(test)]
mod rows;
