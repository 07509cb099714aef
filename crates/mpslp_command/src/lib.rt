//! The command line: its arguments, and the job that they request.
//!
//! [`job`] reads the arguments after the program's name, and returns a [`Job`], or a [`JobFault`] that says why there is none.
//! Jobs are done elsewhere: this crate knows no models.
#![tactic(auto)]

mod jobs;
mod parsing;
mod usage;
mod words;

pub use jobs::{Job, JobFault};
pub use parsing::job;
pub use words::Word;
