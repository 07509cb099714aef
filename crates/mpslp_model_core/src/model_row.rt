//! The limits of a row, and the type and bounds of a column, as a model stores them. A model has many, and most have at most one
//! number: so they take 24 bytes, and only others are boxed.

ghost use Rattle.std.specs.Prelude.{◌≡◌, IfOk, unwrap_or, if◌then◌else◌};
ghost use Rattle.std.specs.Ordering.{is_eq};
ghost use Rattle.mpslp_decimal.specs.Decimal.{decimal_cmp, difference_of, zero_number};
ghost use Rattle.mpslp_types.specs.declared.kinds.Limit.TheVariants.{MinusInf, Finite};
ghost use Rattle.mpslp_model_core.specs.Views.{letter_E, letter_R, row_sense, right_hand_side, row_range};

use crate::packed::{PackedColumn, PackedRow};
use crate::sides::{ColumnBounds, RowLimits, is_same_number};
use mpslp_decimal::laws::each_value_is_a_decimal;
use mpslp_decimal::{Decimal, PackedDecimal};
use mpslp_types::{Kind, Limit};
use std::alloc::{AllocError, Global};
use std::cmp::Ordering;
use std::marker::Model;

/// The limits of a row of a model. Contracts see them as a `Row`.
#[derive(Debug, Drop)]
pub struct ModelRow {
    stored: StoredRow,
}

/// Most rows have one finite limit, or two equal ones.
#[derive(Debug, Drop)]
enum StoredRow {
    /// No limits.
    Free,
    /// At most this number.
    AtMost(PackedDecimal),
    /// At least this number.
    AtLeast(PackedDecimal),
    /// Equal to this number.
    Equal(PackedDecimal),
    /// Any other limits.
    Other(Box<PackedRow>),
}

const _: () = prove!(size_of::<ModelRow>() == 24);

impl Model for ModelRow {
    ghost use Rattle.mpslp_model_core.specs.Model.{Row};
    ghost use Rattle.mpslp_model_core.specs.ModelRow.{row_of_stored};

    ghost Value = { Row };

    ghost view = { λ row. row_of_stored row.stored };
}

/// The letter of a row with two finite limits.
fn letter_between(lower: &Decimal, upper: &Decimal) -> u8
    ensures { result ≡ (if is_eq (decimal_cmp lower.now upper.now) then letter_E else letter_R) }
{
    each_value_is_a_decimal(*lower);
    each_value_is_a_decimal(*upper);
    match lower.cmp(upper) {
        Ordering::Less => b'R',
        Ordering::Equal => b'E',
        Ordering::Greater => b'R',
    }
}

/// The letter of a row.
fn sense_letter(row: RowLimits) -> u8
    ensures { result ≡ row_sense row }
{
    match &row.lower {
        Limit::MinusInf => match &row.upper {
            Limit::Finite(_) => b'L',
            _ => b'N',
        },
        Limit::Finite(lower) => match &row.upper {
            Limit::Finite(upper) => letter_between(lower, upper),
            Limit::PlusInf => b'G',
            Limit::MinusInf => b'N',
        },
        Limit::PlusInf => b'N',
    }
}

/// The upper limit of a row if it is finite, otherwise the lower one, otherwise 0.
fn rhs_of(row: RowLimits) -> Decimal
    ensures { result ≡ right_hand_side row }
{
    match (row.lower, row.upper) {
        (_, Limit::Finite(upper)) => upper,
        (Limit::Finite(lower), _) => lower,
        _ => Decimal::zero(),
    }
}

/// Upper minus lower; 0 if that is not a decimal, which occurs in no model.
fn distance(lower: &Decimal, upper: &Decimal) -> Decimal
    ensures { result ≡ unwrap_or (difference_of upper.now lower.now) zero_number }
{
    upper.checked_sub(*lower).unwrap_or(Decimal::zero())
}

/// Upper minus lower if both are finite, otherwise 0.
fn range_between(row: RowLimits) -> Decimal
    ensures { result ≡ row_range row }
{
    match &row.lower {
        Limit::Finite(lower) => match &row.upper {
            Limit::Finite(upper) => distance(lower, upper),
            _ => Decimal::zero(),
        },
        _ => Decimal::zero(),
    }
}

/// The letter of a row with two equal limits.
fn letter_of_equal(value: &PackedDecimal) -> u8
    ensures { result ≡ row_sense (record { lower = Finite value.now; upper = Finite value.now }) }
{
    b'E'
}

/// The distance between two equal limits.
fn range_of_equal(value: &PackedDecimal) -> Decimal
    ensures { result ≡ row_range (record { lower = Finite value.now; upper = Finite value.now }) }
{
    Decimal::zero()
}

/// Any limits, boxed.
fn boxed_row(alloc: Global, limits: RowLimits) -> Result<ModelRow, AllocError>
    ensures { IfOk result (λ row. row ≡ limits) }
{
    Ok(ModelRow {
        stored: StoredRow::Other(Box::new(alloc, PackedRow::of(limits))?),
    })
}

/// Two finite limits.
fn row_between(alloc: Global, lower: Decimal, upper: Decimal) -> Result<ModelRow, AllocError>
    ensures { IfOk result (λ row. row ≡ record { lower = Finite lower; upper = Finite upper }) }
{
    if is_same_number(lower, upper) {
        return Ok(ModelRow {
            stored: StoredRow::Equal(PackedDecimal::of(lower)),
        });
    }
    boxed_row(
        alloc,
        RowLimits {
            lower: Limit::Finite(lower),
            upper: Limit::Finite(upper),
        },
    )
}

/// No lower limit.
fn row_below(alloc: Global, upper: &Limit) -> Result<ModelRow, AllocError>
    ensures { IfOk result (λ row. row ≡ record { lower = MinusInf; upper = upper.now }) }
{
    match upper {
        Limit::Finite(upper) => Ok(ModelRow {
            stored: StoredRow::AtMost(PackedDecimal::of(*upper)),
        }),
        Limit::PlusInf => Ok(ModelRow {
            stored: StoredRow::Free,
        }),
        Limit::MinusInf => boxed_row(
            alloc,
            RowLimits {
                lower: Limit::MinusInf,
                upper: Limit::MinusInf,
            },
        ),
    }
}

/// A finite lower limit.
fn row_above(alloc: Global, lower: &Decimal, upper: &Limit) -> Result<ModelRow, AllocError>
    ensures { IfOk result (λ row. row ≡ record { lower = Finite lower.now; upper = upper.now }) }
{
    match upper {
        Limit::Finite(upper) => row_between(alloc, *lower, *upper),
        Limit::PlusInf => Ok(ModelRow {
            stored: StoredRow::AtLeast(PackedDecimal::of(*lower)),
        }),
        Limit::MinusInf => boxed_row(
            alloc,
            RowLimits {
                lower: Limit::Finite(*lower),
                upper: Limit::MinusInf,
            },
        ),
    }
}

impl ModelRow {
    /// Stores the limits.
    ///
    /// # Errors
    ///
    /// [`AllocError`] if there is no memory for two different numbers. Nothing is allocated for others that a row may have.
    pub fn of(alloc: Global, limits: RowLimits) -> Result<ModelRow, AllocError>
        ensures { IfOk result (λ row. row ≡ limits) }
    {
        match &limits.lower {
            Limit::MinusInf => row_below(alloc, &limits.upper),
            Limit::Finite(lower) => row_above(alloc, lower, &limits.upper),
            Limit::PlusInf => boxed_row(alloc, limits),
        }
    }

    /// The letter of the row.
    pub(crate) fn sense(&self) -> u8
        ensures { result ≡ row_sense self.now }
    {
        match &self.stored {
            StoredRow::Free => b'N',
            StoredRow::AtMost(_) => b'L',
            StoredRow::AtLeast(_) => b'G',
            StoredRow::Equal(value) => letter_of_equal(value),
            StoredRow::Other(limits) => sense_letter(limits.limits()),
        }
    }

    /// The upper limit if it is finite, otherwise the lower one, otherwise 0.
    pub(crate) fn right_hand_side(&self) -> Decimal
        ensures { result ≡ right_hand_side self.now }
    {
        match &self.stored {
            StoredRow::Free => Decimal::zero(),
            StoredRow::AtMost(value) | StoredRow::AtLeast(value) | StoredRow::Equal(value) => {
                value.value()
            }
            StoredRow::Other(limits) => rhs_of(limits.limits()),
        }
    }

    /// The distance between the limits, or 0 if one is infinite.
    pub(crate) fn range(&self) -> Decimal
        ensures { result ≡ row_range self.now }
    {
        match &self.stored {
            StoredRow::Free | StoredRow::AtMost(_) | StoredRow::AtLeast(_) => Decimal::zero(),
            StoredRow::Equal(value) => range_of_equal(value),
            StoredRow::Other(limits) => range_between(limits.limits()),
        }
    }

    /// The limits.
    pub fn limits(&self) -> RowLimits
        ensures { result ≡ self.now }
    {
        match &self.stored {
            StoredRow::Free => RowLimits {
                lower: Limit::MinusInf,
                upper: Limit::PlusInf,
            },
            StoredRow::AtMost(upper) => RowLimits {
                lower: Limit::MinusInf,
                upper: Limit::Finite(upper.value()),
            },
            StoredRow::AtLeast(lower) => RowLimits {
                lower: Limit::Finite(lower.value()),
                upper: Limit::PlusInf,
            },
            StoredRow::Equal(value) => {
                let value = value.value();
                RowLimits {
                    lower: Limit::Finite(value),
                    upper: Limit::Finite(value),
                }
            }
            StoredRow::Other(limits) => limits.limits(),
        }
    }
}

impl PartialEq for ModelRow {
    ghost use Rattle.mpslp_model_core.specs.Same.{same_row};
    ghost use Rattle.mpslp_model_core.specs.SameLaws.{lawful, decides-row};

    ghost eq = { same_row };

    ghost laws = { lawful same_row decides-row };

    fn eq(&self, other: &ModelRow) -> bool {
        self.limits() == other.limits()
    }
}

/// The type and bounds of a column of a model. Contracts see them as a `Column`.
#[derive(Debug, Drop)]
pub struct ModelBounds {
    stored: StoredBounds,
}

/// Most columns have the lower bound 0.
#[derive(Debug, Drop)]
enum StoredBounds {
    /// At least 0, of this type.
    NonNegative(Kind),
    /// At least 0 and at most this number, of this type.
    UpTo(Kind, PackedDecimal),
    /// Any other bounds.
    Other(Box<PackedColumn>),
}

const _: () = prove!(size_of::<ModelBounds>() == 24);

impl Model for ModelBounds {
    ghost use Rattle.mpslp_model_core.specs.Model.{Column};
    ghost use Rattle.mpslp_model_core.specs.ModelRow.{column_of_stored};

    ghost Value = { Column };

    ghost view = { λ bounds. column_of_stored bounds.stored };
}

/// Any bounds, boxed.
fn boxed_bounds(alloc: Global, bounds: ColumnBounds) -> Result<ModelBounds, AllocError>
    ensures { IfOk result (λ made. made ≡ bounds) }
{
    Ok(ModelBounds {
        stored: StoredBounds::Other(Box::new(alloc, PackedColumn::of(bounds))?),
    })
}

/// Bounds of which the lower one is finite.
fn bounds_above(
    alloc: Global,
    kind: Kind,
    lower: &Decimal,
    upper: &Limit,
) -> Result<ModelBounds, AllocError>
    ensures { IfOk result (λ made. made ≡ record { kind = kind; lower = Finite lower.now; upper = upper.now }) }
{
    if is_same_number(*lower, Decimal::zero()) {
        match upper {
            Limit::Finite(upper) => {
                return Ok(ModelBounds {
                    stored: StoredBounds::UpTo(kind, PackedDecimal::of(*upper)),
                });
            }
            Limit::PlusInf => {
                return Ok(ModelBounds {
                    stored: StoredBounds::NonNegative(kind),
                });
            }
            Limit::MinusInf => {}
        }
    }
    boxed_bounds(
        alloc,
        ColumnBounds {
            kind,
            lower: Limit::Finite(*lower),
            upper: *upper,
        },
    )
}

impl ModelBounds {
    /// Stores the type and bounds.
    ///
    /// # Errors
    ///
    /// [`AllocError`] if there is no memory for bounds of which the lower one is not 0.
    pub fn of(alloc: Global, bounds: ColumnBounds) -> Result<ModelBounds, AllocError>
        ensures { IfOk result (λ made. made ≡ bounds) }
    {
        match &bounds.lower {
            Limit::Finite(lower) => bounds_above(alloc, bounds.kind, lower, &bounds.upper),
            Limit::MinusInf | Limit::PlusInf => boxed_bounds(alloc, bounds),
        }
    }

    /// The type and bounds.
    pub fn bounds(&self) -> ColumnBounds
        ensures { result ≡ self.now }
    {
        match &self.stored {
            StoredBounds::NonNegative(kind) => ColumnBounds {
                kind: *kind,
                lower: Limit::Finite(Decimal::zero()),
                upper: Limit::PlusInf,
            },
            StoredBounds::UpTo(kind, upper) => ColumnBounds {
                kind: *kind,
                lower: Limit::Finite(Decimal::zero()),
                upper: Limit::Finite(upper.value()),
            },
            StoredBounds::Other(bounds) => bounds.bounds(),
        }
    }
}
