//! Laws of the canonical LP texts of models, which mpslp_lp_text defines: the kit wants the laws of an `impl` in a crate below it.
//! The crate has no code other than the laws; the writer is in the crate mpslp_lp_write.
#![tactic(auto)]

pub mod laws;
