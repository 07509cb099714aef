//! The formats of model files.

/// A format of model files, as the command line names it: `mps` or `lp`.
#[derive(Clone, Copy, Debug, PartialEq, Eq)]
pub enum Form {
    Mps,
    Lp,
}
