//! Jobs, and why arguments give none.

use crate::words::Word;
use mpslp_types::Form;

/// A job that the arguments of the command line ask for. The path `-` is standard input.
#[derive(Debug, Drop)]
pub enum Job {
    /// Write the canonical text of a file in a format.
    Canon {
        /// The format of the file.
        from: Form,
        /// The format of the text.
        to: Form,
        path: Word,
    },
    /// Compare two files: whether they declare the same model. At most one of them is standard input.
    Same {
        first_format: Form,
        first: Word,
        second_format: Form,
        second: Word,
    },
    /// Show the model of a file.
    Show {
        from: Form,
        path: Word,
    },
}

/// Why the arguments give no job. Of several reasons the first in this list is reported, but `OutOfMemory` as soon as it
/// occurs.
#[derive(Debug, Drop)]
pub enum JobFault {
    /// Help or the version was requested: this is its text.
    Help(Word),
    /// The arguments are not a command: this text says why.
    Usage(Word),
    /// This argument is not the name of a format.
    UnknownFormat(Word),
    /// Both files of a comparison are standard input.
    BothInputs,
    /// An allocation failed.
    OutOfMemory,
}
