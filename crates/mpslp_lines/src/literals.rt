//! Number literals: their errors and values.

ghost use Rattle.std.specs.Prelude.{◌≡◌, [], ◌∷◌, nat_lt, if◌then◌else◌, Some, None, MatchResult};
ghost use Rattle.mpslp_types.specs.FaultOrder.{kind_rank};
ghost use Rattle.mpslp_lines.specs.FaultTests.{first_held, kind_of_number_fault, number_tests, value_of};

use mpslp_decimal::{Decimal, NumberFault};
use mpslp_model::FaultKind;

/// The error kind for a rejected literal.
pub fn kind_of_number_fault(fault: NumberFault) -> FaultKind
    ensures { result ≡ kind_of_number_fault fault }
{
    match fault {
        NumberFault::BadNumber => FaultKind::BadNumber,
        NumberFault::LongNumber => FaultKind::LongNumber,
        NumberFault::TooManyDigits => FaultKind::TooManyDigits,
        NumberFault::ExponentRange => FaultKind::ExponentRange,
    }
}

/// The error that comes first, of the literals of one line.
pub fn lower_ranked_number_fault(first: NumberFault, second: NumberFault) -> NumberFault
    ensures { result ≡ (if nat_lt (kind_rank (kind_of_number_fault second)) (kind_rank (kind_of_number_fault first)) then second else first) }
{
    if kind_of_number_fault(second).rank() < kind_of_number_fault(first).rank() {
        second
    } else {
        first
    }
}

/// The value of a literal.
///
/// # Errors
///
/// The kind of the literal's first error: `BadNumber`, `LongNumber`, `TooManyDigits` or `ExponentRange`.
pub fn value_of(literal: &[u8]) -> Result<Decimal, FaultKind>
    ensures { let first_fault = first_held (number_tests (literal.now ∷ [])) in
        MatchResult result (λ value. (first_fault ≡ None) × (value ≡ value_of literal.now)) (λ kind. first_fault ≡ Some kind) }
{
    match Decimal::parse(literal) {
        Ok(value) => Ok(value),
        Err(fault) => Err(kind_of_number_fault(fault)),
    }
}
