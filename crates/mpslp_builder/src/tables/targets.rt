//! Where a right-hand side, a range, a coefficient, bounds or a type may be declared, by number, or the error with which the
//! declaration would be rejected.
//!
//! A declaring call makes one such query, which looks each name up once.

ghost use Rattle.std.specs.Prelude.{◌≡◌, ◌&&◌, ◌||◌, IfOk, Some, None, false, suc, is_some};
ghost use Rattle.std.specs.Option.{option_map_or};
ghost use Rattle.std.specs.Ordering.{nat_cmp};
ghost use Rattle.std.specs.FinMap.{find};
ghost use Rattle.mpslp_types.specs.Limit.{is_plus_infinite, is_minus_infinite};
ghost use Rattle.mpslp_builder.specs.Declaration.{declare_range, has_coefficient};
ghost use Rattle.mpslp_builder.specs.Refusal.{rhs_tests, integer_tests, semi_tests, coefficient_tests, refusals, bounds_refusals};
ghost use Rattle.mpslp_builder.specs.Answer.{first_refusal, refused_by, IsNotOutOfMemory};
ghost use Rattle.mpslp_builder.specs.Tables.{draft, IsNumbered};
ghost use Rattle.mpslp_builder.specs.Calls.{CoefficientsAreKnown, row_key_of, row_name, column_name, has_limits, has_rhs_at, has_lower_at, has_upper_at, cells_at, answer_of, declare_property, IsOnceEach};

use crate::tables::{RowRef, Tables};
use mpslp_builder_parts::Property;
use mpslp_decimal::Decimal;
use mpslp_types::{BuildFault, Limit};

/// Whether the lower bound is plus infinity, or the upper one is minus infinity.
fn have_infinite_side(lower: &Option<Limit>, upper: &Option<Limit>) -> bool
    ensures { result ≡ (option_map_or is_plus_infinite lower.now false || option_map_or is_minus_infinite upper.now false) }
{
    match (lower, upper) {
        (Some(Limit::PlusInf), _) => true,
        (_, Some(Limit::MinusInf)) => true,
        _ => false,
    }
}

/// The place of a coefficient, by numbers.
#[derive(Clone, Copy)]
pub(crate) struct CoefficientTarget {
    pub(crate) row: u32,
    pub(crate) column: usize,
}

impl Tables {
    /// The place where this right-hand side may be stored.
    pub(crate) fn rhs_target(
        &self,
        row: &[u8],
        constant: &Option<Decimal>,
    ) -> Result<RowRef, BuildFault>
        requires { IsNumbered self.now }
        ensures place { IfOk result (λ place. row_name self.now (row_key_of place) ≡ Some row.now) }
        ensures absent { IfOk result (λ place. has_rhs_at self.now (is_some constant.now) place ≡ false) }
        ensures once { IsOnceEach self.now }
        ensures answer { answer_of result ≡ refused_by (rhs_tests (draft None constant.now self.now) row.now) }
    {
        self.each_name_occurs_once();
        let Some(place) = self.row_ref(row) else {
            return Err(BuildFault::UnknownRow);
        };
        if self.has_rhs(place, constant.is_some()) {
            return Err(BuildFault::DuplicateRhs);
        }
        Ok(place)
    }

    /// The index of the row that may get this range.
    pub(crate) fn range_target(&self, row: &[u8], value: Decimal) -> Result<usize, BuildFault>
        requires { IsNumbered self.now }
        ensures place { IfOk result (λ i. row_name self.now (suc i) ≡ Some row.now) }
        ensures typed { IfOk result (λ i. has_limits self.now (RowRef.Row i) ≡ false) }
        ensures once { IsOnceEach self.now }
        ensures answer { answer_of result ≡ first_refusal (refusals (draft None None self.now) (declare_range row.now value)) }
    {
        self.each_name_occurs_once();
        let Some(place) = self.row_ref(row) else {
            return Err(BuildFault::UnknownRow);
        };
        if self.has_range(place) {
            return Err(BuildFault::DuplicateRange);
        }
        let RowRef::Row(index) = place else {
            return Err(BuildFault::RangeOnFree);
        };
        if self.is_free(place) {
            return Err(BuildFault::RangeOnFree);
        }
        if value.is_infinite_size() {
            return Err(BuildFault::InfiniteValue);
        }
        Ok(index)
    }

    /// Whether a coefficient of this row, or of the objective, is declared in this column.
    pub(crate) fn has_coefficient(&self, row: &[u8], column: &[u8]) -> bool
        requires numbered { IsNumbered self.now }
        requires known { CoefficientsAreKnown (draft None None self.now) }
        ensures { result ≡ has_coefficient (draft None None self.now) (record { row = row.now; column = column.now }) }
    {
        self.each_name_occurs_once();
        // A column that is not declared yet saves the look-up of the row.
        let Some(number) = self.column_number(column) else {
            return false;
        };
        let Some(place) = self.row_ref(row) else {
            return false;
        };
        self.has_cell(number, place.number())
    }

    /// The place where this coefficient may be stored.
    pub(crate) fn coefficient_target(
        &self,
        row: &[u8],
        column: &[u8],
    ) -> Result<CoefficientTarget, BuildFault>
        requires { IsNumbered self.now }
        ensures row { IfOk result (λ place. row_name self.now place.row ≡ Some row.now) }
        ensures column { IfOk result (λ place. column_name self.now place.column ≡ Some column.now) }
        ensures absent { IfOk result (λ place. find nat_cmp place.row (cells_at self.now place.column) ≡ None) }
        ensures once { IsOnceEach self.now }
        ensures answer { answer_of result ≡ refused_by (coefficient_tests (draft None None self.now) (record { row = row.now; column = column.now })) }
    {
        self.each_name_occurs_once();
        let Some(place) = self.row_ref(row) else {
            return Err(BuildFault::UnknownRow);
        };
        let Some(column) = self.column_number(column) else {
            return Err(BuildFault::UnknownColumn);
        };
        let row = place.number();
        if self.has_cell(column, row) {
            return Err(BuildFault::DuplicateEntry);
        }
        Ok(CoefficientTarget { row, column })
    }

    /// Whether the column of a number already has a declaration of a given bound.
    fn has_side(&self, column: usize, lower: &Option<Limit>, upper: &Option<Limit>) -> bool
        ensures { result ≡ ((is_some lower.now && has_lower_at self.now column) || (is_some upper.now && has_upper_at self.now column)) }
    {
        (lower.is_some() && self.has_lower(column)) || (upper.is_some() && self.has_upper(column))
    }

    /// The number of the column that may get these bounds.
    pub(crate) fn bounds_target(
        &self,
        column: &[u8],
        lower: &Option<Limit>,
        upper: &Option<Limit>,
    ) -> Result<usize, BuildFault>
        ensures number { IfOk result (λ i. column_name self.now i ≡ Some column.now) }
        ensures once { IsOnceEach self.now }
        ensures answer { answer_of result ≡ first_refusal (bounds_refusals (draft None None self.now) column.now lower.now upper.now) }
    {
        self.each_name_occurs_once();
        let Some(number) = self.column_number(column) else {
            return Err(BuildFault::UnknownColumn);
        };
        if self.has_side(number, lower, upper) {
            return Err(BuildFault::DuplicateBound);
        }
        if have_infinite_side(lower, upper) {
            return Err(BuildFault::InfiniteValue);
        }
        Ok(number)
    }

    /// The number of the column that may be declared marked, integer or binary.
    pub(crate) fn integer_target(&self, column: &[u8]) -> Result<usize, BuildFault>
        ensures number { IfOk result (λ i. column_name self.now i ≡ Some column.now) }
        ensures once { IsOnceEach self.now }
        ensures answer { answer_of result ≡ refused_by (integer_tests (draft None None self.now) column.now) }
    {
        self.each_name_occurs_once();
        let Some(number) = self.column_number(column) else {
            return Err(BuildFault::UnknownColumn);
        };
        if self.is_semi(number) {
            return Err(BuildFault::SemiContinuous);
        }
        Ok(number)
    }

    /// The number of the column that may be declared semi-continuous.
    pub(crate) fn semi_target(&self, column: &[u8]) -> Result<usize, BuildFault>
        ensures number { IfOk result (λ i. column_name self.now i ≡ Some column.now) }
        ensures once { IsOnceEach self.now }
        ensures answer { answer_of result ≡ refused_by (semi_tests (draft None None self.now) column.now) }
    {
        self.each_name_occurs_once();
        let Some(number) = self.column_number(column) else {
            return Err(BuildFault::UnknownColumn);
        };
        if self.is_integer(number) {
            return Err(BuildFault::SemiContinuous);
        }
        Ok(number)
    }

    /// The number of the column that may be declared to have a property.
    pub(crate) fn property_target(
        &self,
        column: &[u8],
        property: Property,
    ) -> Result<usize, BuildFault>
        ensures number { IfOk result (λ i. column_name self.now i ≡ Some column.now) }
        ensures once { IsOnceEach self.now }
        ensures answer { answer_of result ≡ first_refusal (refusals (draft None None self.now) (declare_property property column.now)) }
        ensures memory { IsNotOutOfMemory (answer_of result) }
    {
        match property {
            Property::Marked => self.integer_target(column),
            Property::Integer => self.integer_target(column),
            Property::Binary => self.integer_target(column),
            Property::Semi => self.semi_target(column),
        }
    }
}
