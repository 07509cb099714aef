//! The errors of files, of calls of the builder, and of models that are to be written.

ghost use Rattle.std.specs.Prelude.{◌≡◌};
ghost use Rattle.mpslp_types.specs.FaultName.{build_fault_name, kind_name};
ghost use Rattle.mpslp_types.specs.FaultOrder.{kind_rank};

use crate::names::Name;
use std::alloc::AllocError;
use thiserror::Error;

/// Why the builder rejects a declaration. If several apply, the call documents which one is returned.
#[derive(Clone, Copy, Debug, PartialEq, Eq, Error)]
pub enum BuildFault {
    /// The sense is already declared.
    #[error("the sense is declared twice")]
    DuplicateSense,
    /// The objective is already named.
    #[error("the objective is named twice")]
    SecondObjective,
    /// Neither a row nor the objective has this name.
    #[error("no such row is declared")]
    UnknownRow,
    /// No column has this name.
    #[error("no such column is declared")]
    UnknownColumn,
    /// A row or the objective already has this name.
    #[error("the row is declared twice")]
    DuplicateRow,
    /// The coefficient of this row and column is already declared.
    #[error("the coefficient is declared twice")]
    DuplicateEntry,
    /// The right-hand side, or the constant of the objective, is already declared.
    #[error("the RHS is declared twice")]
    DuplicateRhs,
    /// The range is already declared.
    #[error("the range is declared twice")]
    DuplicateRange,
    /// The bound is already declared.
    #[error("the bound is declared twice")]
    DuplicateBound,
    /// A range on the objective or on a row of type [`Free`](crate::RowType::Free).
    #[error("the objective or a free row has no range")]
    RangeOnFree,
    /// A column is both semi-continuous and integer.
    #[error("the column is both integer and semi-continuous")]
    SemiContinuous,
    /// A limit or bound that no value meets, or a range value of infinite magnitude.
    #[error("the value is infinite")]
    InfiniteValue,
    /// Out of memory.
    #[error("out of memory")]
    OutOfMemory,
}

impl BuildFault {
    /// The name of the fault.
    pub fn text(self) -> &'static str
        ensures { result.now ≡ build_fault_name self }
    {
        match self {
            BuildFault::DuplicateSense => "DuplicateSense",
            BuildFault::SecondObjective => "SecondObjective",
            BuildFault::UnknownRow => "UnknownRow",
            BuildFault::UnknownColumn => "UnknownColumn",
            BuildFault::DuplicateRow => "DuplicateRow",
            BuildFault::DuplicateEntry => "DuplicateEntry",
            BuildFault::DuplicateRhs => "DuplicateRhs",
            BuildFault::DuplicateRange => "DuplicateRange",
            BuildFault::DuplicateBound => "DuplicateBound",
            BuildFault::RangeOnFree => "RangeOnFree",
            BuildFault::SemiContinuous => "SemiContinuous",
            BuildFault::InfiniteValue => "InfiniteValue",
            BuildFault::OutOfMemory => "OutOfMemory",
        }
    }
}

impl From<AllocError> for BuildFault {
    ghost use Rattle.std.specs.Prelude.{◌≡◌};
    ghost use Rattle.mpslp_types.specs.declared.faults.BuildFault.{BuildFault};

    ghost from_gives = { λ _ fault. fault ≡ BuildFault.OutOfMemory };

    fn from(_error: AllocError) -> BuildFault {
        BuildFault::OutOfMemory
    }
}

/// The kind of an error in a file. The order of the kinds decides which of several errors is reported.
#[derive(Clone, Copy, Debug, PartialEq, Eq)]
pub enum FaultKind {
    /// The line is longer than 1,048,576 bytes.
    LineTooLong = 1,
    /// A byte outside comments that is neither printable ASCII nor a tab.
    BadByte,
    /// A quadratic objective or row.
    Quadratic,
    /// A special ordered set.
    Sos,
    /// An indicator row.
    Indicator,
    /// A column that is both semi-continuous and integer.
    SemiContinuous,
    /// An unknown MPS header.
    UnknownSection,
    /// A section or a data line in a wrong place.
    SectionOrder,
    /// A section that already occurred.
    SectionRepeated,
    /// A wrong number of fields in a line.
    FieldCount,
    /// An LP token that is not allowed here.
    BadToken,
    /// An unknown row type, bound type or sense.
    BadType,
    /// A marker line that starts a block inside a block, ends one outside, or is of an unknown type.
    BadMarker,
    /// A name without bytes, or with more than [`MAX_NAME_LEN`](crate::MAX_NAME_LEN).
    NameLength,
    /// A byte that is not allowed in names.
    NameByte,
    /// The name `'MARKER'`.
    NameMarker,
    /// An LP name that reads as an exponent: `e` or `E`, followed by nothing or by a digit.
    NameLikeExponent,
    /// A field that is not a number literal.
    BadNumber,
    /// A number literal of more than 255 bytes.
    LongNumber,
    /// A number with too many significant digits.
    TooManyDigits,
    /// A number whose exponent is out of range.
    ExponentRange,
    /// A second set of right-hand sides, ranges or bounds.
    SecondSet,
    /// A row that is not declared.
    UnknownRow,
    /// A column that is not declared.
    UnknownColumn,
    /// A column whose lines are not contiguous.
    ColumnSplit,
    /// A second row with the same name, or a row with the name of the objective.
    DuplicateRow,
    /// A second coefficient of the same row and column.
    DuplicateEntry,
    /// A second right-hand side of the same row, or a second constant.
    DuplicateRhs,
    /// A second range of the same row.
    DuplicateRange,
    /// A second lower or upper bound of the same column.
    DuplicateBound,
    /// A range on the objective or on a row of type N.
    RangeOnFree,
    /// A constant among the terms of an LP row.
    ConstantInRow,
    /// Two relations of one LP row or bound that point in different directions.
    MixedSenses,
    /// A limit or bound that no value meets, or a range value of infinite magnitude.
    InfiniteValue,
    /// The end that the format requires is missing. A whole-file error without a name.
    MissingEnd,
    /// There is no column. A whole-file error without a name.
    NoColumns,
    /// A row with an infinite right-hand side: plus infinity on G, minus infinity on L, either on E or with a range.
    InfiniteLimit,
    /// A row with a computed limit, or a distance between its limits, that is not a decimal.
    RangeInexact,
    /// A row with a computed limit, or a distance between its limits, of magnitude 10^20 or more.
    LimitTooLarge,
    /// A row whose lower limit is above the upper one.
    LimitsCrossed,
    /// A column whose upper bound is below 0, without a declared lower bound.
    NegativeUpper,
    /// A column whose lower bound is above the upper one.
    BoundsCrossed,
    /// A binary column whose bounds are not within 0 and 1.
    BinaryBounds,
    /// A semi-continuous column whose lower bound is below 0, or whose upper bound is infinite or not above 0.
    SemiBounds,
}

impl FaultKind {
    /// The rank of the kind, counted from 1. Of several errors the one with the lowest rank is reported.
    pub fn rank(self) -> u8
        ensures { result ≡ kind_rank self }
    {
        self as u8
    }

    /// The name of the kind.
    pub fn text(self) -> &'static str
        ensures { result.now ≡ kind_name self }
    {
        match self {
            FaultKind::LineTooLong => "LineTooLong",
            FaultKind::BadByte => "BadByte",
            FaultKind::Quadratic => "Quadratic",
            FaultKind::Sos => "Sos",
            FaultKind::Indicator => "Indicator",
            FaultKind::SemiContinuous => "SemiContinuous",
            FaultKind::UnknownSection => "UnknownSection",
            FaultKind::SectionOrder => "SectionOrder",
            FaultKind::SectionRepeated => "SectionRepeated",
            FaultKind::FieldCount => "FieldCount",
            FaultKind::BadToken => "BadToken",
            FaultKind::BadType => "BadType",
            FaultKind::BadMarker => "BadMarker",
            FaultKind::NameLength => "NameLength",
            FaultKind::NameByte => "NameByte",
            FaultKind::NameMarker => "NameMarker",
            FaultKind::NameLikeExponent => "NameLikeExponent",
            FaultKind::BadNumber => "BadNumber",
            FaultKind::LongNumber => "LongNumber",
            FaultKind::TooManyDigits => "TooManyDigits",
            FaultKind::ExponentRange => "ExponentRange",
            FaultKind::SecondSet => "SecondSet",
            FaultKind::UnknownRow => "UnknownRow",
            FaultKind::UnknownColumn => "UnknownColumn",
            FaultKind::ColumnSplit => "ColumnSplit",
            FaultKind::DuplicateRow => "DuplicateRow",
            FaultKind::DuplicateEntry => "DuplicateEntry",
            FaultKind::DuplicateRhs => "DuplicateRhs",
            FaultKind::DuplicateRange => "DuplicateRange",
            FaultKind::DuplicateBound => "DuplicateBound",
            FaultKind::RangeOnFree => "RangeOnFree",
            FaultKind::ConstantInRow => "ConstantInRow",
            FaultKind::MixedSenses => "MixedSenses",
            FaultKind::InfiniteValue => "InfiniteValue",
            FaultKind::MissingEnd => "MissingEnd",
            FaultKind::NoColumns => "NoColumns",
            FaultKind::InfiniteLimit => "InfiniteLimit",
            FaultKind::RangeInexact => "RangeInexact",
            FaultKind::LimitTooLarge => "LimitTooLarge",
            FaultKind::LimitsCrossed => "LimitsCrossed",
            FaultKind::NegativeUpper => "NegativeUpper",
            FaultKind::BoundsCrossed => "BoundsCrossed",
            FaultKind::BinaryBounds => "BinaryBounds",
            FaultKind::SemiBounds => "SemiBounds",
        }
    }
}

/// The error that is reported for a file.
#[derive(Debug, Drop)]
pub struct Fault {
    /// The kind of the error.
    pub kind: FaultKind,
    /// The line, counted from 1; 0 for a whole-file error.
    pub line: u64,
    /// The row or column with the whole-file error; of several, the first in byte order.
    pub name: Option<Name>,
}

/// Why a file gives no model.
#[derive(Debug, Drop)]
pub enum ReadFault {
    /// The file has this error.
    File(Fault),
    /// The reader rejected an earlier piece of the file and takes no more.
    Failed,
    /// Out of memory.
    OutOfMemory,
}

/// A name in a model that is not legal in a format.
#[derive(Clone, Copy, Debug, PartialEq, Eq)]
pub enum NameAt {
    /// The name of the objective.
    Objective,
    /// The name of the row of this number. Rows are numbered from 0, in byte order of their names.
    Row(usize),
    /// The name of the column of this number. Columns are numbered from 0, in byte order of their
    /// names.
    Column(usize),
}

/// Why the text of a model was not written, or not completely.
#[derive(Clone, Copy, Debug, PartialEq, Eq)]
pub enum WriteFault {
    /// The sink failed.
    Write {
        /// How many bytes of the text the sink took before it failed. The count saturates at 2^64 - 1.
        written: u64,
    },
    /// The model has a name that is not legal in LP; nothing was written. This is the first such name: the objective comes
    /// first, then the rows, then the columns.
    NotLp(NameAt),
}
