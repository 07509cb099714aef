//! What is declared of a row.

ghost use Rattle.std.specs.Prelude.{◌≡◌, Some, false, is_some, unwrap_or};
ghost use Rattle.mpslp_decimal.specs.Decimal.{zero_number};
ghost use Rattle.mpslp_model_core.specs.Limits.{by_type, by_limits, is_free_definition, is_definition_by_limits};
ghost use Rattle.mpslp_model_core.specs.RowForms.{row_definition};
ghost use Rattle.mpslp_builder_parts.specs.Parts.{rhs_of, range_of, new_row};
ghost use Rattle.mpslp_builder_parts.specs.RowForm.{limit_of_side};

use mpslp_decimal::{Decimal, PackedDecimal};
use mpslp_model_core::RowDefinition;
use mpslp_types::{Limit, RowType};
use std::marker::Model;

/// What is declared of a row. Contracts see its definition, its right-hand side and its range.
///
/// A row that is declared by its limits has neither right-hand side nor range, so two numbers are enough for every row. A number
/// that is not declared is 0.
#[derive(Debug, Drop)]
pub struct RowParts {
    form: RowForm,
    /// The right-hand side, or the lower limit.
    first: PackedDecimal,
    /// The range, or the upper limit.
    second: PackedDecimal,
}

/// How a row is declared, and which of its numbers are.
#[derive(Clone, Copy, Debug)]
enum RowForm {
    /// By its type; whether the right-hand side is declared, and whether the range is.
    ByType(RowType, bool, bool),
    /// By its lower and its upper limit.
    ByLimits(Side, Side),
}

/// Which limit it is, without its number.
#[derive(Clone, Copy, Debug)]
enum Side {
    /// Minus infinity.
    MinusInf,
    /// A number.
    Finite,
    /// Plus infinity.
    PlusInf,
}

const _: () = prove!(size_of::<RowParts>() == 44);

impl Model for RowParts {
    ghost use Rattle.mpslp_builder_parts.specs.RowParts.{RowParts};
    ghost use Rattle.mpslp_builder_parts.specs.RowForm.{row_of_form};

    ghost Value = { RowParts };

    ghost view = { λ row. row_of_form row.form row.first row.second };
}

/// Which limit it is, and its number, or 0.
fn side_of(limit: Limit) -> (Side, Decimal)
    ensures { limit_of_side result.0 result.1 ≡ limit }
{
    match limit {
        Limit::MinusInf => (Side::MinusInf, Decimal::zero()),
        Limit::Finite(number) => (Side::Finite, number),
        Limit::PlusInf => (Side::PlusInf, Decimal::zero()),
    }
}

/// The limit.
fn limit_of(side: Side, number: &PackedDecimal) -> Limit
    ensures { result ≡ limit_of_side side number.now }
{
    match side {
        Side::MinusInf => Limit::MinusInf,
        Side::Finite => Limit::Finite(number.value()),
        Side::PlusInf => Limit::PlusInf,
    }
}

impl RowParts {
    /// A row that is declared by its type, without right-hand side and range.
    pub fn of_type(row_type: RowType) -> RowParts
        ensures { result ≡ new_row (by_type row_type) }
    {
        RowParts {
            form: RowForm::ByType(row_type, false, false),
            first: PackedDecimal::of(Decimal::zero()),
            second: PackedDecimal::of(Decimal::zero()),
        }
    }

    /// A row that is declared by its limits.
    pub fn of_limits(lower: Limit, upper: Limit) -> RowParts
        ensures { result ≡ new_row (by_limits lower upper) }
    {
        let (lower_side, lower_number) = side_of(lower);
        let (upper_side, upper_number) = side_of(upper);
        RowParts {
            form: RowForm::ByLimits(lower_side, upper_side),
            first: PackedDecimal::of(lower_number),
            second: PackedDecimal::of(upper_number),
        }
    }

    /// The declaration of the row.
    #[inline(always)]
    pub fn definition(&self) -> RowDefinition
        ensures { row_definition result ≡ self.now.definition }
    {
        match self.form {
            RowForm::ByType(row_type, _, _) => RowDefinition::ByType(row_type),
            RowForm::ByLimits(lower, upper) => RowDefinition::ByLimits(
                limit_of(lower, &self.first),
                limit_of(upper, &self.second),
            ),
        }
    }

    /// Whether the row is of type N.
    pub fn is_free(&self) -> bool
        ensures { result ≡ is_free_definition self.now.definition }
    {
        match self.form {
            RowForm::ByType(RowType::Free, _, _) => true,
            _ => false,
        }
    }

    /// Whether the row is declared by its limits.
    pub fn has_limits(&self) -> bool
        ensures { result ≡ is_definition_by_limits self.now.definition }
    {
        match self.form {
            RowForm::ByType(_, _, _) => false,
            RowForm::ByLimits(_, _) => true,
        }
    }

    /// Whether the right-hand side is declared.
    pub fn has_rhs(&self) -> bool
        ensures { result ≡ is_some self.now.rhs }
    {
        match self.form {
            RowForm::ByType(_, has_rhs, _) => has_rhs,
            RowForm::ByLimits(_, _) => false,
        }
    }

    /// Whether the range is declared.
    pub fn has_range(&self) -> bool
        ensures { result ≡ is_some self.now.range }
    {
        match self.form {
            RowForm::ByType(_, _, has_range) => has_range,
            RowForm::ByLimits(_, _) => false,
        }
    }

    /// The right-hand side, or 0 if none is declared.
    #[inline(always)]
    pub fn rhs_or_zero(&self) -> Decimal
        ensures { result ≡ unwrap_or (rhs_of self.now) zero_number }
    {
        if self.has_rhs() {
            self.first.value()
        } else {
            Decimal::zero()
        }
    }

    /// The range, if one is declared.
    #[inline(always)]
    pub fn range_value(&self) -> Option<Decimal>
        ensures { result ≡ range_of self.now }
    {
        if self.has_range() {
            Some(self.second.value())
        } else {
            None
        }
    }

    /// Stores the right-hand side. The row must be declared by its type.
    pub fn put_rhs(&mut self, value: Decimal)
        requires { is_definition_by_limits self.old.definition ≡ false }
        ensures { self.new ≡ record self.old { rhs = Some value } }
    {
        if let RowForm::ByType(row_type, _, has_range) = self.form {
            self.form = RowForm::ByType(row_type, true, has_range);
            self.first = PackedDecimal::of(value);
        }
    }

    /// Stores the range. The row must be declared by its type.
    pub fn put_range(&mut self, value: Decimal)
        requires { is_definition_by_limits self.old.definition ≡ false }
        ensures { self.new ≡ record self.old { range = Some value } }
    {
        if let RowForm::ByType(row_type, has_rhs, _) = self.form {
            self.form = RowForm::ByType(row_type, has_rhs, true);
            self.second = PackedDecimal::of(value);
        }
    }
}
