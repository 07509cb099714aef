//! Why a line is rejected.

ghost use Rattle.mpslp_lines.specs.LineAnswer.{IsFaultOn};

use mpslp_model::{BuildFault, Fault, FaultKind, NameFault, ReadFault};
use std::alloc::AllocError;

/// Why a line is rejected.
#[derive(Clone, Copy, Debug, PartialEq, Eq)]
pub enum LineError {
    /// The line has this error.
    Fault(FaultKind),
    /// An allocation failed.
    OutOfMemory,
}

impl From<FaultKind> for LineError {
    ghost use Rattle.std.specs.Prelude.{◌≡◌};
    ghost use Rattle.mpslp_lines.specs.declared.errors.LineError.{LineError};

    ghost from_gives = { λ kind error. error ≡ LineError.Fault kind };

    fn from(kind: FaultKind) -> LineError {
        LineError::Fault(kind)
    }
}

impl From<AllocError> for LineError {
    ghost use Rattle.std.specs.Prelude.{◌≡◌};
    ghost use Rattle.mpslp_lines.specs.declared.errors.LineError.{LineError};

    ghost from_gives = { λ _ error. error ≡ LineError.OutOfMemory };

    fn from(_error: AllocError) -> LineError {
        LineError::OutOfMemory
    }
}

impl From<NameFault> for LineError {
    ghost use Rattle.std.specs.Prelude.{◌≡◌};
    ghost use Rattle.mpslp_lines.specs.ErrorOf.{error_of_name};

    ghost from_gives = { λ fault error. error ≡ error_of_name fault };

    fn from(fault: NameFault) -> LineError {
        match fault {
            NameFault::NameLength => LineError::Fault(FaultKind::NameLength),
            NameFault::NameByte => LineError::Fault(FaultKind::NameByte),
            NameFault::NameMarker => LineError::Fault(FaultKind::NameMarker),
            NameFault::OutOfMemory => LineError::OutOfMemory,
        }
    }
}

impl From<BuildFault> for LineError {
    ghost use Rattle.std.specs.Prelude.{◌≡◌};
    ghost use Rattle.mpslp_lines.specs.ErrorOf.{error_of_build};

    ghost from_gives = { λ fault error. error ≡ error_of_build fault };

    fn from(fault: BuildFault) -> LineError {
        match fault {
            BuildFault::UnknownRow => LineError::Fault(FaultKind::UnknownRow),
            BuildFault::UnknownColumn => LineError::Fault(FaultKind::UnknownColumn),
            BuildFault::DuplicateRow => LineError::Fault(FaultKind::DuplicateRow),
            // No well-formed line declares a second sense or a second objective.
            BuildFault::DuplicateEntry | BuildFault::DuplicateSense | BuildFault::SecondObjective =>
                { LineError::Fault(FaultKind::DuplicateEntry) }
            BuildFault::DuplicateRhs => LineError::Fault(FaultKind::DuplicateRhs),
            BuildFault::DuplicateRange => LineError::Fault(FaultKind::DuplicateRange),
            BuildFault::DuplicateBound => LineError::Fault(FaultKind::DuplicateBound),
            BuildFault::RangeOnFree => LineError::Fault(FaultKind::RangeOnFree),
            BuildFault::SemiContinuous => LineError::Fault(FaultKind::SemiContinuous),
            BuildFault::InfiniteValue => LineError::Fault(FaultKind::InfiniteValue),
            BuildFault::OutOfMemory => LineError::OutOfMemory,
        }
    }
}

/// Why a line is rejected, and the number of the line. It is what a reader returns for each line, since it is much smaller than a
/// [`ReadFault`].
#[derive(Clone, Copy, Debug, PartialEq, Eq)]
pub struct NumberedError {
    /// The number of the line.
    pub line: u64,
    /// Why it is rejected.
    pub error: LineError,
}

/// The error of a text that has this error on a line. The error of a line has no name.
pub fn read_fault(line: u64, error: LineError) -> ReadFault
    ensures { IsFaultOn line error result }
{
    match error {
        LineError::Fault(kind) => ReadFault::File(Fault {
            kind,
            line,
            name: None,
        }),
        LineError::OutOfMemory => ReadFault::OutOfMemory,
    }
}
