//! The canonical LP texts of models.
//!
//! A model whose names are LP names has one canonical LP text. `specs/CanonicalLp.antt` defines it line by line, and
//! `specs/Printed.antt` defines how a line is printed. `unfit` in `specs/Unfit.antt` is the first name of a model that
//! is not legal in LP. The crate has only these definitions: they need nothing of the reader, so the writer waits for no reader.
//! mpslp_lp_laws has their laws.
#![tactic(auto)]
