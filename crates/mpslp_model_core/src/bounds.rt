//! The type and bounds of a column, from what is declared of it, and what may be wrong with them.

ghost use Rattle.std.specs.Prelude.{◌≡◌, ◌&&◌, not};
ghost use Rattle.mpslp_types.specs.Limit.{is_finite_above_zero, are_semi_bounds};
ghost use Rattle.mpslp_model_core.specs.Model.{suits};
ghost use Rattle.mpslp_model_core.specs.Limits.{no_side_declared, upper_by_default, declared_lower, declared_upper, is_declared_integer, declared_kind, declared_column, is_negative_upper, are_no_binary_bounds};
ghost use Rattle.mpslp_model_core.specs.WrongParts.{are_crossed_bounds, are_no_semi_bounds, bounds_test, are_faulty_bounds, kind_of_column_fault};

use crate::sides::ColumnBounds;
use mpslp_decimal::Decimal;
use mpslp_types::{FaultKind, Kind, Limit};

/// An error in the bounds of a column. The variants are in the order in which errors are reported.
#[derive(Clone, Copy)]
pub enum ColumnFault {
    /// The upper bound is below 0 and no lower bound is declared.
    NegativeUpper,
    /// The lower bound is above the upper one.
    BoundsCrossed,
    /// The column is binary and its bounds are not within 0 and 1.
    BinaryBounds,
    /// The column is semi-continuous, and its lower bound is below 0, or its upper bound is infinite or not above 0.
    SemiBounds,
}

/// Whether the bound is a number above 0.
fn is_finite_above_zero(side: Limit) -> bool
    ensures { result ≡ is_finite_above_zero side }
{
    match side {
        Limit::Finite(value) => { !Limit::Finite(value).is_at_most(Limit::Finite(Decimal::zero())) }
        Limit::MinusInf | Limit::PlusInf => false,
    }
}

/// Whether a semi-continuous column may have these bounds: the lower at least 0, the upper finite and above 0.
fn are_semi_bounds(lower: Limit, upper: Limit) -> bool
    ensures { result ≡ are_semi_bounds lower upper }
{
    Limit::Finite(Decimal::zero()).is_at_most(lower) && is_finite_above_zero(upper)
}

/// Whether a column of this type may have these bounds.
fn suits(kind: Kind, lower: Limit, upper: Limit) -> bool
    ensures { result ≡ suits kind lower upper }
{
    match kind {
        Kind::Continuous | Kind::Integer => true,
        Kind::Semi => are_semi_bounds(lower, upper),
    }
}

/// What is declared of a column.
#[derive(Clone, Copy, Debug)]
pub struct DeclaredColumn {
    /// Its lower bound, if one is declared.
    pub lower: Option<Limit>,
    /// Its upper bound, if one is declared.
    pub upper: Option<Limit>,
    /// Whether it is in an integer block of an MPS file.
    pub marked: bool,
    /// Whether it is declared integer.
    pub integer: bool,
    /// Whether it is declared binary.
    pub binary: bool,
    /// Whether it is declared semi-continuous.
    pub semi: bool,
}

impl DeclaredColumn {
    /// Whether neither bound is declared.
    fn has_no_side(&self) -> bool
        ensures { result ≡ no_side_declared self.now }
    {
        self.lower.is_none() && self.upper.is_none()
    }

    /// Whether the column is integer.
    pub fn is_integer(&self) -> bool
        ensures { result ≡ is_declared_integer self.now }
    {
        self.marked || (self.integer || self.binary)
    }

    /// The type of the column.
    fn kind(&self) -> Kind
        ensures { result ≡ declared_kind self.now }
    {
        if self.is_integer() {
            Kind::Integer
        } else if self.semi {
            Kind::Semi
        } else {
            Kind::Continuous
        }
    }

    /// The upper bound if none is declared.
    fn default_upper(&self) -> Limit
        ensures { result ≡ upper_by_default self.now }
    {
        if self.binary || (self.marked && self.has_no_side()) {
            Limit::Finite(Decimal::one())
        } else {
            Limit::PlusInf
        }
    }

    /// The lower bound.
    fn lower_bound(&self) -> Limit
        ensures { result ≡ declared_lower self.now }
    {
        match self.lower {
            Some(bound) => bound,
            None => Limit::Finite(Decimal::zero()),
        }
    }

    /// The upper bound.
    fn upper_bound(&self) -> Limit
        ensures { result ≡ declared_upper self.now }
    {
        match self.upper {
            Some(bound) => bound,
            None => self.default_upper(),
        }
    }

    /// The type and bounds of the column. Without a declaration the lower bound is 0, and the upper bound is plus infinity, or 1
    /// for a binary column and for a marked one without any declared bound.
    pub fn bounds(&self) -> ColumnBounds
        ensures { result ≡ declared_column self.now }
    {
        ColumnBounds {
            kind: self.kind(),
            lower: self.lower_bound(),
            upper: self.upper_bound(),
        }
    }

    /// Whether the upper bound is below 0 and no lower bound is declared.
    fn has_negative_upper(&self) -> bool
        ensures { result ≡ is_negative_upper self.now }
    {
        self.lower.is_none() && !Limit::Finite(Decimal::zero()).is_at_most(self.upper_bound())
    }

    /// Whether the lower bound is above the upper one.
    fn has_crossed_bounds(&self) -> bool
        ensures { result ≡ are_crossed_bounds self.now }
    {
        !self.lower_bound().is_at_most(self.upper_bound())
    }

    /// Whether the column is binary and its bounds are not within 0 and 1.
    fn has_binary_bounds(&self) -> bool
        ensures { result ≡ are_no_binary_bounds self.now }
    {
        self.binary
            && !(Limit::Finite(Decimal::zero()).is_at_most(self.lower_bound())
                && self.upper_bound().is_at_most(Limit::Finite(Decimal::one())))
    }

    /// Whether the column is semi-continuous, and its lower bound is below 0, or its upper bound is infinite or not above 0.
    fn has_semi_bounds(&self) -> bool
        ensures { result ≡ are_no_semi_bounds self.now }
    {
        !suits(self.kind(), self.lower_bound(), self.upper_bound())
    }

    /// Whether the column has this error.
    pub fn has_fault(&self, fault: ColumnFault) -> bool
        ensures { result ≡ bounds_test fault self.now }
    {
        match fault {
            ColumnFault::NegativeUpper => self.has_negative_upper(),
            ColumnFault::BoundsCrossed => self.has_crossed_bounds(),
            ColumnFault::BinaryBounds => self.has_binary_bounds(),
            ColumnFault::SemiBounds => self.has_semi_bounds(),
        }
    }

    /// Whether the column is semi-continuous.
    fn is_semi(&self) -> bool
        ensures { result ≡ (self.now.semi && not (is_declared_integer self.now)) }
    {
        self.semi && !self.is_integer()
    }

    /// Whether the column has any error. Without a declared bound only a semi-continuous column has one.
    #[inline(always)]
    pub fn is_faulty(&self) -> bool
        ensures { result ≡ are_faulty_bounds self.now }
    {
        if self.has_no_side() {
            return self.is_semi();
        }
        self.has_negative_upper()
            || (self.has_crossed_bounds() || (self.has_binary_bounds() || self.has_semi_bounds()))
    }
}

/// The kind under which an error of a column is reported.
pub fn kind_of_column_fault(fault: ColumnFault) -> FaultKind
    ensures { result ≡ kind_of_column_fault fault }
{
    match fault {
        ColumnFault::NegativeUpper => FaultKind::NegativeUpper,
        ColumnFault::BoundsCrossed => FaultKind::BoundsCrossed,
        ColumnFault::BinaryBounds => FaultKind::BinaryBounds,
        ColumnFault::SemiBounds => FaultKind::SemiBounds,
    }
}
