//! Tests of the crates below the builder, in a crate of their own because the kit proves a crate with tests twice.
//!
//! They test the public calls of the crates that do not use the builder, which succeed with ample memory: numbers, devices, maps,
//! names, the parts of rows and columns, the devices for tests, and the command line. Tests of the model's definitions share
//! functions with those of the builder, and so are in mpslp_model_tests.
#![tactic(auto)]

#[cfg(test)]
mod coefficients;
#[cfg(test)]
mod command_line;
#[cfg(test)]
mod decimals;
#[cfg(test)]
mod devices;
#[cfg(test)]
mod lp_names;
#[cfg(test)]
mod maps;
#[cfg(test)]
mod names;
#[cfg(test)]
mod order;
#[cfg(test)]
mod pieces;
#[cfg(test)]
mod streams;
