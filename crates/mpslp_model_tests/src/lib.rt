//! Tests of the builder and of models, in a crate of their own because the kit proves a crate with tests twice.
//!
//! They test the public calls of the builder, and limits and the definitions of models, which succeed with ample memory. The tests
//! of the other crates below the builder are in mpslp_base_tests, which is proved earlier.
#![tactic(auto)]

#[cfg(test)]
mod building;
#[cfg(test)]
mod definitions;
#[cfg(test)]
mod limits;
#[cfg(test)]
mod texts;
