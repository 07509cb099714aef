//! Tests of readers, writers and conversions, in a crate of their own because the kit proves a crate with tests twice.
//!
//! They test the public calls of these, which succeed with ample memory, and their laws. The results for each kind of line are in
//! `vectors/`, which `try_library vectors` checks through the same calls.
#![tactic(auto)]

#[cfg(test)]
mod answers;
#[cfg(test)]
mod converting;
#[cfg(test)]
mod jobs;
#[cfg(test)]
mod reading;
#[cfg(test)]
mod tokens;
#[cfg(test)]
mod writing;
