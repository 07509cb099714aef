//! Laws of the canonical MPS texts of models, which mpslp_mps_text defines: the kit wants the laws of an `impl` in a crate below it.
//! The crate has no code other than the laws; the writer is in the crate mpslp_mps_write.
#![tactic(auto)]

pub mod laws;
