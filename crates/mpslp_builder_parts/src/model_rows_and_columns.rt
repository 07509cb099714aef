//! The rows and the columns of a model, from what is declared of them, and in the order of their names.

ghost use Rattle.std.specs.Prelude.{◌≡◌, IfOk, length, unwrap_or};
ghost use Rattle.std.specs.List.{range_with_len};
ghost use Rattle.std.specs.List.Sorted.{IsPermutation, IsSortedByKey};
ghost use Rattle.mpslp_decimal.specs.Decimal.{zero_number};
ghost use Rattle.mpslp_types.specs.Name.{bytes_cmp};
ghost use Rattle.mpslp_types.specs.declared.kinds.RowType.TheVariants as types;
ghost use Rattle.mpslp_model_core.specs.Limits.{limits_of, plain_limits};
ghost use Rattle.mpslp_model_core.specs.RowForms.{row_definition};
ghost use Rattle.mpslp_builder_parts.specs.Ordered.{name_at, entries_at};
ghost use Rattle.mpslp_builder_parts.specs.Parts.{limits_in};

use crate::order::{in_order, is_in_order, numbers_below, order_of};
use crate::row_parts::RowParts;
use mpslp_decimal::Decimal;
use mpslp_model_core::{ModelRow, RowDefinition, RowLimits, limits_of, plain_limits};
use mpslp_types::{Name, RowType};
use std::alloc::{AllocError, Global};

/// The limits of a row; if they are not decimals, those of a row without limits.
#[inline(always)]
fn limits_or_none(definition: &RowDefinition, rhs: Decimal, range: &Option<Decimal>) -> RowLimits
    ensures { result ≡ unwrap_or (limits_of (row_definition definition.now) rhs range.now) (plain_limits types.Free zero_number) }
{
    match limits_of(definition, rhs, range) {
        Some(limits) => limits,
        None => plain_limits(RowType::Free, Decimal::zero()),
    }
}

/// The limits of a row.
#[inline(always)]
fn limits_in(row: &RowParts) -> RowLimits
    ensures { result ≡ limits_in row.now }
{
    limits_or_none(&row.definition(), row.rhs_or_zero(), &row.range_value())
}

/// The row of a model, from what is declared of it.
///
/// # Errors
///
/// [`AllocError`] if there is no memory for two different finite limits.
pub fn row_of(alloc: Global, row: &RowParts) -> Result<ModelRow, AllocError>
    ensures { IfOk result (λ made. made ≡ limits_in row.now) }
{
    ModelRow::of(alloc, limits_in(row))
}

/// Returns the former indices of rows or columns in byte order of their names, and the rows or columns in that order. Those that
/// are in this order are neither moved nor copied.
///
/// # Errors
///
/// [`AllocError`] if the allocation fails.
pub fn ordered<X: Drop>(
    alloc: Global,
    entries: Vec<(Name, X)>,
) -> Result<(Vec<usize>, Vec<(Name, X)>), AllocError>
    ensures permutation { IfOk result (λ r. IsPermutation (range_with_len 0 (length entries.items)) r.0.items) }
    ensures sorted { IfOk result (λ r. IsSortedByKey (name_at entries.items) bytes_cmp r.0.items) }
    ensures taken { IfOk result (λ r. r.1.items ≡ entries_at entries.items r.0.items) }
{
    if is_in_order(&entries) {
        let numbers = numbers_below(alloc, entries.len())?;
        return Ok((numbers, entries));
    }
    let order = order_of(alloc, &entries)?;
    let ordered = in_order(alloc, entries, &order)?;
    Ok((order, ordered))
}
