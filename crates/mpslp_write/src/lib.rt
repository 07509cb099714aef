//! The formats of model files, and their writers.
//!
//! [`Mps`] and [`Lp`] are the formats: reader, writer, and the laws that relate them. The writers, [`write_mps`] of
//! mpslp_mps_write, and [`write_lp`] and [`first_unfit_name`] of mpslp_lp_write, are re-exported here.
#![tactic(auto)]

mod formats;
mod readers;

pub use formats::{Lp, Mps};
pub use mpslp_lp_write::{first_unfit_name, write_lp};
pub use mpslp_mps_write::write_mps;
