//! The canonical MPS texts of models.
//!
//! A model has one canonical MPS text. `specs/CanonicalMps.antt` defines it line by line, and how a line is printed. Files that
//! differ only in the order of their entries, in comments, in set names and the like have the same text. The crate has only these
//! definitions: they need nothing of the reader, so the writer waits for no reader. mpslp_mps_laws has their laws.
#![tactic(auto)]
