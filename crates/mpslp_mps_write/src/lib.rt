//! The writer of canonical MPS.
//!
//! [`write_mps`] writes the canonical MPS text of a model, which mpslp_mps_laws defines, to a sink, through an output of
//! mpslp_io.
#![tactic(auto)]

mod mps;

pub use mps::write_mps;
