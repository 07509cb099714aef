//! Numbers, limits and types of rows, written as text.

ghost use Rattle.std.specs.Prelude.{IsTrue};
ghost use Rattle.std.specs.Option.{ForSome};
ghost use Rattle.mpslp_types.specs.Limit.{is_given};

use mpslp_decimal::Decimal;
use mpslp_types::{Limit, RowType};

/// The number of a literal.
pub(crate) fn number(text: &str) -> Decimal {
    match Decimal::parse(text.as_bytes()) {
        Ok(value) => value,
        Err(_) => Decimal::zero(),
    }
}

/// The limit of a literal, which is infinite from 10^20 on.
pub(crate) fn side(text: &str) -> Limit
    ensures { IsTrue (is_given result) }
{
    Limit::of(number(text))
}

/// The limit of a literal, or none for `-`.
pub(crate) fn side_if_given(text: &str) -> Option<Limit>
    ensures { ForSome result (λ side. IsTrue (is_given side)) }
{
    if text == "-" { None } else { Some(side(text)) }
}

/// The type of rows of this letter.
pub(crate) fn row_type(letter: &str) -> RowType {
    match letter {
        "L" => RowType::AtMost,
        "G" => RowType::AtLeast,
        "E" => RowType::Equal,
        _ => RowType::Free,
    }
}
