//! The values of a line of COLUMNS, RHS or RANGES, and the set name of a line.

ghost use Rattle.std.specs.Prelude.{◌≡◌, [], ◌∷◌, map, not, false, Some, None, MatchResult};
ghost use Rattle.std.specs.Option.{option_map, option_map_or};
ghost use Rattle.mpslp_types.specs.Name.{same_bytes};
ghost use Rattle.mpslp_lines.specs.FaultTests.{kind_of_number_fault, number_tests, value_of, first_held};
ghost use Rattle.mpslp_mps.specs.LineAnswer.{ReturnsUnless};
ghost use Rattle.mpslp_mps.specs.LineValues.{numbers_fault, row_value};

use mpslp_decimal::Decimal;
use mpslp_lines::{kind_of_number_fault, lower_ranked_number_fault, value_of};
use mpslp_model::FaultKind;
use mpslp_mps_fields::{Pair, Pairs};
use std::marker::Model;

/// A row and a value.
#[derive(Drop)]
pub(crate) struct RowValue<'a> {
    pub(crate) row: &'a [u8],
    pub(crate) value: Decimal,
}

impl<'a> Model for RowValue<'a> {
    ghost use Rattle.std.specs.Prelude.{ℕ, List};
    ghost use Rattle.mpslp_decimal.specs.Decimal.{Number};

    ghost Value = { List ℕ × Number };

    ghost view = { λ v. (v.row.now, v.value) };
}

/// One or two rows with values.
#[derive(Drop)]
pub(crate) struct RowValues<'a> {
    pub(crate) first: RowValue<'a>,
    pub(crate) second: Option<RowValue<'a>>,
}

impl<'a> Model for RowValues<'a> {
    ghost use Rattle.std.specs.Prelude.{ℕ, List, [], ◌∷◌};
    ghost use Rattle.std.specs.List.{cons_option};
    ghost use Rattle.mpslp_decimal.specs.Decimal.{Number};

    ghost Value = { List (List ℕ × Number) };

    ghost view = { λ v. v.first ∷ cons_option v.second [] };
}

/// The value of one pair, or its error.
#[inline(always)]
fn value_of_one<'a>(pair: Pair<'a>) -> Result<RowValues<'a>, FaultKind>
    ensures { ReturnsUnless (numbers_fault (pair.entry ∷ [])) result (λ values. values ≡ map row_value (pair.entry ∷ [])) }
{
    match value_of(pair.literal) {
        Ok(value) => Ok(RowValues {
            first: RowValue {
                row: pair.row,
                value,
            },
            second: None,
        }),
        Err(kind) => Err(kind),
    }
}

/// The values of two pairs, or the first of their errors in the order of kinds.
#[inline(always)]
fn values_of_both<'a>(pair: Pair<'a>, other: Pair<'a>) -> Result<RowValues<'a>, FaultKind>
    ensures { ReturnsUnless (numbers_fault (pair.entry ∷ other.entry ∷ [])) result (λ values. values ≡ map row_value (pair.entry ∷ other.entry ∷ [])) }
{
    match (Decimal::parse(pair.literal), Decimal::parse(other.literal)) {
        (Ok(value), Ok(second)) => Ok(RowValues {
            first: RowValue {
                row: pair.row,
                value,
            },
            second: Some(RowValue {
                row: other.row,
                value: second,
            }),
        }),
        (Err(fault), Ok(_)) => Err(kind_of_number_fault(fault)),
        (Ok(_), Err(fault)) => Err(kind_of_number_fault(fault)),
        (Err(fault), Err(second)) => Err(kind_of_number_fault(lower_ranked_number_fault(
            fault, second,
        ))),
    }
}

/// The values of the pairs of a line, or the first of their errors in the order of kinds.
#[inline(always)]
pub(crate) fn values_of<'a>(pairs: Pairs<'a>) -> Result<RowValues<'a>, FaultKind>
    ensures { ReturnsUnless (numbers_fault pairs.entry) result (λ values. values ≡ map row_value pairs.entry) }
{
    let Pairs { first, second } = pairs;
    match second {
        Some(other) => values_of_both(first, other),
        None => value_of_one(first),
    }
}

/// Whether a set name differs from that of the first line of the section.
pub(crate) fn is_second_set(first: Option<&[u8]>, set: &[u8]) -> bool
    ensures { result ≡ option_map_or (λ name. not (same_bytes name set.now)) (option_map (λ name. name.now) first.entry) false }
{
    match first {
        Some(name) => name != set,
        None => false,
    }
}

/// Whether both values are for the same row.
pub(crate) fn is_same_row(first: &RowValue, second: &RowValue) -> bool
    ensures { result ≡ same_bytes second.now.0 first.now.0 }
{
    second.row == first.row
}
