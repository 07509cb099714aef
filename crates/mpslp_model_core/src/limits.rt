//! The limits of a row, from its type, right-hand side and range, and what may be wrong with them.

ghost use Rattle.std.specs.Prelude.{◌≡◌, IfSome, Option, Some, not, is_none, false};
ghost use Rattle.std.specs.Ordering.{is_lt};
ghost use Rattle.std.specs.Option.{option_map_or};
ghost use Rattle.mpslp_decimal.specs.Decimal.{Number, decimal_cmp, is_infinite_size, size_of, sum_of, difference_of};
ghost use Rattle.mpslp_types.specs.Limit.{is_at_most};
ghost use Rattle.mpslp_types.specs.declared.kinds.Limit.TheVariants.{Finite};
ghost use Rattle.mpslp_model_core.specs.Limits.{by_limits, sides, plain_limits, ranged_limits, limits_of, has_infinite_rhs};
ghost use Rattle.mpslp_model_core.specs.RowForms.{row_definition, is_plain};
ghost use Rattle.mpslp_model_core.specs.WrongParts.{is_large_limit, distance_passes, is_inexact, is_too_large, is_crossed, is_faulty_row, row_test, kind_of_row_fault};

use crate::sides::{RowLimits, is_same_number};
use mpslp_decimal::Decimal;
use mpslp_types::{FaultKind, Limit, RowType};

/// The declaration of a row. Contracts speak of its `row_definition`.
#[derive(Clone, Copy, Debug)]
pub enum RowDefinition {
    /// Its type.
    ByType(RowType),
    /// Its lower and its upper limit.
    ByLimits(Limit, Limit),
}

/// An error in the limits of a row. The variants are in the order in which errors are reported.
#[derive(Clone, Copy)]
pub enum RowFault {
    /// The right-hand side is infinite: plus infinity on G, minus infinity on L, either on E or with a range.
    InfiniteLimit,
    /// A computed limit, or the distance between both limits, is not a decimal.
    RangeInexact,
    /// A computed limit, or the distance between both limits, has a magnitude of 10^20 or more.
    LimitTooLarge,
    /// The lower limit is above the upper one.
    LimitsCrossed,
}

/// The limits, if both are given.
fn sides(lower: Option<Decimal>, upper: Option<Decimal>) -> Option<RowLimits>
    ensures { result ≡ sides lower upper }
{
    match (lower, upper) {
        (Some(lower), Some(upper)) => Some(RowLimits {
            lower: Limit::Finite(lower),
            upper: Limit::Finite(upper),
        }),
        _ => None,
    }
}

/// The limits by type and right-hand side, without a range.
#[inline(always)]
pub fn plain_limits(row_type: RowType, rhs: Decimal) -> RowLimits
    ensures { result ≡ plain_limits row_type rhs }
{
    let (lower, upper) = match row_type {
        RowType::Free => (Limit::MinusInf, Limit::PlusInf),
        RowType::AtMost => (Limit::MinusInf, Limit::of(rhs)),
        RowType::AtLeast => (Limit::of(rhs), Limit::PlusInf),
        RowType::Equal => {
            let lower = Limit::of(rhs);
            let upper = lower;
            (lower, upper)
        }
    };
    RowLimits { lower, upper }
}

/// The limits if the range extends downwards from the right-hand side.
fn below(rhs: Decimal, range: Decimal) -> Option<RowLimits>
    ensures { result ≡ sides (difference_of rhs (size_of range)) (Some rhs) }
{
    sides(rhs.checked_sub(range.abs()), Some(rhs))
}

/// The limits if the range extends upwards from the right-hand side.
fn above(rhs: Decimal, range: Decimal) -> Option<RowLimits>
    ensures { result ≡ sides (Some rhs) (sum_of rhs (size_of range)) }
{
    sides(Some(rhs), rhs.checked_add(range.abs()))
}

/// The limits by type, right-hand side and range, if the computed one is a decimal.
fn ranged_limits(row_type: RowType, rhs: Decimal, range: Decimal) -> Option<RowLimits>
    ensures { result ≡ ranged_limits row_type rhs range }
{
    match row_type {
        RowType::Free => Some(RowLimits {
            lower: Limit::MinusInf,
            upper: Limit::PlusInf,
        }),
        RowType::AtMost => below(rhs, range),
        RowType::AtLeast => above(rhs, range),
        RowType::Equal if range.is_negative() => below(rhs, range),
        RowType::Equal => above(rhs, range),
    }
}

/// The limits of a row, if they are decimals.
#[inline(always)]
pub fn limits_of(
    definition: &RowDefinition,
    rhs: Decimal,
    range: &Option<Decimal>,
) -> Option<RowLimits>
    ensures { result ≡ limits_of (row_definition definition.now) rhs range.now }
{
    match (definition, range) {
        (RowDefinition::ByType(row_type), None) => Some(plain_limits(*row_type, rhs)),
        (RowDefinition::ByType(row_type), Some(range)) => ranged_limits(*row_type, rhs, *range),
        (RowDefinition::ByLimits(lower, upper), _) => Some(RowLimits {
            lower: *lower,
            upper: *upper,
        }),
    }
}

/// Whether the right-hand side is infinite in a row that cannot have it: plus infinity on G, minus infinity on L, either on E
/// or with a range.
#[inline(always)]
fn has_infinite_rhs(definition: &RowDefinition, rhs: Decimal, range: &Option<Decimal>) -> bool
    ensures { result ≡ has_infinite_rhs (row_definition definition.now) rhs range.now }
{
    match definition {
        RowDefinition::ByType(RowType::AtMost) => {
            (range.is_some() || rhs.is_negative()) && rhs.is_infinite_size()
        }
        RowDefinition::ByType(RowType::AtLeast) => {
            (range.is_some() || !rhs.is_negative()) && rhs.is_infinite_size()
        }
        RowDefinition::ByType(RowType::Equal) => rhs.is_infinite_size(),
        RowDefinition::ByType(RowType::Free) | RowDefinition::ByLimits(_, _) => false,
    }
}

/// Whether the limit is finite with a magnitude of 10^20 or more.
fn is_large_limit(limit: Limit) -> bool
    ensures { result ≡ is_large_limit limit }
{
    match limit {
        Limit::Finite(value) => value.is_infinite_size(),
        _ => false,
    }
}

/// Whether the limits are finite and their distance is not a decimal.
fn is_inexact_distance(limits: RowLimits) -> bool
    ensures { result ≡ distance_passes is_none limits }
{
    match &limits.lower {
        Limit::Finite(lower) => match &limits.upper {
            Limit::Finite(upper) => upper.checked_sub(*lower).is_none(),
            _ => false,
        },
        _ => false,
    }
}

/// Whether there is a number and its magnitude is 10^20 or more.
fn is_large(value: Option<Decimal>) -> bool
    ensures { result ≡ option_map_or is_infinite_size value false }
{
    match value {
        Some(value) => value.is_infinite_size(),
        None => false,
    }
}

/// Whether the limits are finite and their distance is 10^20 or more.
fn is_large_distance(limits: RowLimits) -> bool
    ensures { result ≡ distance_passes (λ d. option_map_or is_infinite_size d false) limits }
{
    match &limits.lower {
        Limit::Finite(lower) => match &limits.upper {
            Limit::Finite(upper) => is_large(upper.checked_sub(*lower)),
            _ => false,
        },
        _ => false,
    }
}

/// Whether a computed limit, or the distance, is not a decimal.
fn is_inexact(limits: &Option<RowLimits>) -> bool
    ensures { result ≡ is_inexact limits.now }
{
    match limits {
        Some(limits) => is_inexact_distance(*limits),
        None => true,
    }
}

/// Whether a computed limit, or the distance, has a magnitude of 10^20 or more.
fn is_too_large(limits: &Option<RowLimits>) -> bool
    ensures { result ≡ is_too_large limits.now }
{
    match limits {
        Some(limits) => {
            is_large_limit(limits.lower)
                || (is_large_limit(limits.upper) || is_large_distance(*limits))
        }
        None => false,
    }
}

/// Whether the lower limit is above the upper one.
fn is_crossed(limits: &Option<RowLimits>) -> bool
    ensures { result ≡ is_crossed limits.now }
{
    match limits {
        Some(limits) => !limits.lower.is_at_most(limits.upper),
        None => false,
    }
}

/// Whether the row is declared by its type, and has no range.
#[inline(always)]
fn is_plain(definition: &RowDefinition, range: &Option<Decimal>) -> bool
    ensures { result ≡ is_plain (row_definition definition.now) range.now }
{
    match (definition, range) {
        (RowDefinition::ByType(_), None) => true,
        _ => false,
    }
}

/// The limit, if both are the same number. Only its magnitude may be wrong.
fn limit_of_both(lower: Decimal, upper: Decimal) -> Option<Limit>
    ensures { IfSome result (λ limit. (b : Number) (r : Option Number) → is_large_limit limit ≡ is_faulty_row (by_limits (Finite lower) (Finite upper)) b r) }
{
    if is_same_number(lower, upper) {
        return Some(Limit::Finite(lower));
    }
    None
}

/// The other limit if the lower one is minus infinity or the upper one plus infinity, or either of two equal ones. Only its magnitude
/// may be wrong, so a row with these limits is faulty if and only if that is too large.
fn limit_of_limits(lower: &Limit, upper: &Limit) -> Option<Limit>
    ensures { IfSome result (λ limit. (b : Number) (r : Option Number) → is_large_limit limit ≡ is_faulty_row (by_limits lower.now upper.now) b r) }
{
    match lower {
        Limit::MinusInf => Some(*upper),
        Limit::Finite(value) => match upper {
            Limit::PlusInf => Some(*lower),
            Limit::Finite(other) => limit_of_both(*value, *other),
            Limit::MinusInf => None,
        },
        Limit::PlusInf => match upper {
            Limit::PlusInf => Some(*lower),
            _ => None,
        },
    }
}

/// The limit that decides whether a row by its limits is faulty, if one of them does.
#[inline(always)]
fn only_limit(definition: &RowDefinition) -> Option<Limit>
    ensures { IfSome result (λ limit. (b : Number) (r : Option Number) → is_large_limit limit ≡ is_faulty_row (row_definition definition.now) b r) }
{
    match definition {
        RowDefinition::ByLimits(lower, upper) => limit_of_limits(lower, upper),
        RowDefinition::ByType(_) => None,
    }
}

/// Whether a row with this definition, right-hand side and range has any error. Its limits are computed only once, and not at
/// all where only one number may be wrong: for a row by its type without a range, or by its limits with an infinite one or two equal
/// ones.
#[inline(always)]
pub fn is_faulty_row(definition: &RowDefinition, rhs: Decimal, range: &Option<Decimal>) -> bool
    ensures { result ≡ is_faulty_row (row_definition definition.now) rhs range.now }
{
    if is_plain(definition, range) {
        return has_infinite_rhs(definition, rhs, range);
    }
    if let Some(limit) = only_limit(definition) {
        return is_large_limit(limit);
    }
    let limits = limits_of(definition, rhs, range);
    has_infinite_rhs(definition, rhs, range)
        || (is_inexact(&limits) || (is_too_large(&limits) || is_crossed(&limits)))
}

/// Whether a row with this definition, right-hand side and range has this error.
pub fn row_has(
    fault: RowFault,
    definition: &RowDefinition,
    rhs: Decimal,
    range: &Option<Decimal>,
) -> bool
    ensures { result ≡ row_test fault (row_definition definition.now) rhs range.now }
{
    match fault {
        RowFault::InfiniteLimit => has_infinite_rhs(definition, rhs, range),
        RowFault::RangeInexact => is_inexact(&limits_of(definition, rhs, range)),
        RowFault::LimitTooLarge => is_too_large(&limits_of(definition, rhs, range)),
        RowFault::LimitsCrossed => is_crossed(&limits_of(definition, rhs, range)),
    }
}

/// The kind under which an error of a row is reported.
pub fn kind_of_row_fault(fault: RowFault) -> FaultKind
    ensures { result ≡ kind_of_row_fault fault }
{
    match fault {
        RowFault::InfiniteLimit => FaultKind::InfiniteLimit,
        RowFault::RangeInexact => FaultKind::RangeInexact,
        RowFault::LimitTooLarge => FaultKind::LimitTooLarge,
        RowFault::LimitsCrossed => FaultKind::LimitsCrossed,
    }
}
