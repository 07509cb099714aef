//! The conformance suite: worked examples of every public call, and devices that fail in a chosen call.
//!
//! The tests name only the seven public crates, as a user does, so they show that each call is there under its name and with its
//! signature, and returns what the documents say. They run with ample memory.
#![tactic(auto)]

pub use mpslp_test_devices::{FailingReader, FailingWriter};

#[cfg(test)]
mod building;
#[cfg(test)]
mod changed_lines;
#[cfg(test)]
mod conversions;
#[cfg(test)]
mod decimals;
#[cfg(test)]
mod devices;
#[cfg(test)]
mod lp_files;
#[cfg(test)]
mod models;
#[cfg(test)]
mod mps_files;
#[cfg(test)]
mod program;
#[cfg(test)]
mod readers;
#[cfg(test)]
mod texts;
#[cfg(test)]
mod tokens;
