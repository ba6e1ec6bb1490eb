//! Tests of the command line: how its words are read, rows as lines, what a server is asked and
//! what is printed of its replies, commands over a store whose device, output or memory fails, the
//! page of a server's numbers and what else its peers are answered, and the error line and the
//! status with which the program ends. Whole command lines are in `test_program`.
#![tactic(auto)]

#[cfg(test)]
mod answers;
#[cfg(test)]
mod asking;
#[cfg(test)]
mod asks;
#[cfg(test)]
mod checks;
#[cfg(test)]
mod commands;
#[cfg(test)]
mod host;
#[cfg(test)]
mod lines;
#[cfg(test)]
mod options;
#[cfg(test)]
mod pages;
#[cfg(test)]
mod refusals;
#[cfg(test)]
mod registrations;
#[cfg(test)]
mod requests;
#[cfg(test)]
mod row_texts;
#[cfg(test)]
mod versions;
#[cfg(test)]
mod writers;
