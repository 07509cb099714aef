//! The statuses that the calls return.

ghost use Rattle.std.specs.Prelude.{◌≡◌};
ghost use Rattle.mpslp_c.specs.Answers.{fault_status, truth_status};

use mpslp_conversions::ConvertFault;

/// Done; or yes.
pub(crate) const OK: u32 = 0;

/// No.
pub(crate) const DIFFERS: u32 = 1;

/// The text, the first of two, or the arrays define no model.
pub(crate) const REFUSED: u32 = 2;

/// The second text defines no model.
pub(crate) const SECOND_REFUSED: u32 = 3;

/// The model has a name that is not legal in LP.
pub(crate) const NOT_LP: u32 = 4;

/// An allocation failed.
pub(crate) const OUT_OF_MEMORY: u32 = 5;

/// An unknown format.
pub(crate) const UNKNOWN_FORMAT: u32 = 6;

/// The status of an error.
pub(crate) fn fault_status(fault: &ConvertFault) -> u32
    ensures { result ≡ fault_status fault.now }
{
    match fault {
        ConvertFault::First(_) => REFUSED,
        ConvertFault::Second(_) => SECOND_REFUSED,
        ConvertFault::NotLp(_) => NOT_LP,
        ConvertFault::OutOfMemory => OUT_OF_MEMORY,
    }
}

/// The status of yes or no.
pub(crate) fn truth_status(is_true: bool) -> u32
    ensures { result ≡ truth_status is_true }
{
    if is_true { OK } else { DIFFERS }
}
