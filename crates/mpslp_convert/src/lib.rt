//! Conversions between MPS and LP, and the jobs of the program.
//!
//! [`canonical`], [`same_model`] and [`is_canonical`] are for bytes in memory; [`load`], [`run`] and [`show`] are between a source
//! and a sink, with [`report`] and [`line_of`] for errors. They are for any two formats, such as `Mps` and `Lp` of mpslp_write.
//! [`job`] makes a job of the program's arguments, and [`perform`] does it.
//!
//! Each call that needs a seed for the hashes of names has a form with a seed, such as [`canonical_seeded`]. This crate re-exports
//! what users need of the crates below it.
#![tactic(auto)]

mod job_end;
mod job_runner;
pub mod laws;

pub use job_runner::{perform, perform_seeded};
pub use mpslp_command::{Job, JobFault, Word, job};
pub use mpslp_conversions::{
    ConvertFault, Line, RunFault, canonical, canonical_seeded, is_canonical, is_canonical_seeded,
    line_of, load, report, run, run_seeded, same_model, same_model_seeded, show, show_seeded,
};
pub use mpslp_types::Form;
