//! Why a conversion or a run produces no text.

use mpslp_model::{Fault, NameAt};

/// Why bytes are not converted or compared.
#[derive(Debug, Drop)]
pub enum ConvertFault {
    /// The first text declares no model, and this is its first error.
    First(Fault),
    /// The second text declares no model, and this is its first error.
    Second(Fault),
    /// The model has a name that is not legal in the format of the result. This is the first one.
    NotLp(NameAt),
    /// Out of memory.
    OutOfMemory,
}

/// Why a run between a source and a sink wrote no complete text. The variants are in the order in which they are checked;
/// out of memory is reported where it occurs.
#[derive(Debug, Drop)]
pub enum RunFault {
    /// The source has failed.
    Read,
    /// The source had more bytes than the limit.
    TooLong,
    /// The bytes declare no model, and this is their first error.
    File(Fault),
    /// The model has a name that is not legal in the format of the result. This is the first one.
    NotLp(NameAt),
    /// The sink has failed.
    Write {
        /// How many bytes of the text the sink took before it failed. The count saturates at 2^64 - 1.
        written: u64,
    },
    /// Out of memory.
    OutOfMemory,
}
