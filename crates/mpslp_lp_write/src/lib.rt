//! The writer of canonical LP.
//!
//! [`write_lp`] writes the canonical LP text of a model, which mpslp_lp_laws defines, to a sink, through an output of
//! mpslp_io. [`first_unfit_name`] finds the first name of a model that is not legal in LP.
#![tactic(auto)]

mod lp;

pub use lp::{first_unfit_name, write_lp};
