//! The limits of a row, and the type and bounds of a column.

ghost use Rattle.std.specs.Prelude.{◌≡◌};
ghost use Rattle.mpslp_model_core.specs.Same.{same_number, same_limit, same_kind};

use mpslp_decimal::Decimal;
use mpslp_types::{Kind, Limit};
use std::marker::Model;

/// The limits of a row. Contracts see them as a `Row`.
#[derive(Clone, Copy, Debug)]
pub struct RowLimits {
    pub lower: Limit,
    pub upper: Limit,
}

impl Model for RowLimits {
    ghost use Rattle.mpslp_model_core.specs.Model.{Row};

    ghost Value = { Row };

    ghost view = { λ r. record { lower = r.lower; upper = r.upper } };

    ghost inverse = { λ r. record { lower = r.lower; upper = r.upper } };
}

impl PartialEq for RowLimits {
    ghost use Rattle.mpslp_model_core.specs.Same.{same_row};
    ghost use Rattle.mpslp_model_core.specs.SameLaws.{lawful, decides-row};

    ghost eq = { same_row };

    ghost laws = { lawful same_row decides-row };

    fn eq(&self, other: &RowLimits) -> bool {
        is_same_limit(self.lower, other.lower) && is_same_limit(self.upper, other.upper)
    }
}

/// The type and bounds of a column. Contracts see them as a `Column`.
#[derive(Clone, Copy, Debug)]
pub struct ColumnBounds {
    pub kind: Kind,
    pub lower: Limit,
    pub upper: Limit,
}

impl Model for ColumnBounds {
    ghost use Rattle.mpslp_model_core.specs.Model.{Column};

    ghost Value = { Column };

    ghost view = { λ c. record { kind = c.kind; lower = c.lower; upper = c.upper } };

    ghost inverse = { λ c. record { kind = c.kind; lower = c.lower; upper = c.upper } };
}

impl PartialEq for ColumnBounds {
    ghost use Rattle.mpslp_model_core.specs.Same.{same_column};
    ghost use Rattle.mpslp_model_core.specs.SameLaws.{lawful, decides-column};

    ghost eq = { same_column };

    ghost laws = { lawful same_column decides-column };

    fn eq(&self, other: &ColumnBounds) -> bool {
        is_same_kind(self.kind, other.kind)
            && (is_same_limit(self.lower, other.lower) && is_same_limit(self.upper, other.upper))
    }
}

/// Whether the numbers are the same.
pub(crate) fn is_same_number(a: Decimal, b: Decimal) -> bool
    ensures { result ≡ same_number a b }
{
    a == b
}

/// Whether the limits are the same.
fn is_same_limit(a: Limit, b: Limit) -> bool
    ensures { result ≡ same_limit a b }
{
    match a {
        Limit::MinusInf => match b {
            Limit::MinusInf => true,
            Limit::Finite(_) | Limit::PlusInf => false,
        },
        Limit::Finite(a) => match b {
            Limit::Finite(b) => is_same_number(a, b),
            Limit::MinusInf | Limit::PlusInf => false,
        },
        Limit::PlusInf => match b {
            Limit::PlusInf => true,
            Limit::MinusInf | Limit::Finite(_) => false,
        },
    }
}

/// Whether the types are the same.
fn is_same_kind(a: Kind, b: Kind) -> bool
    ensures { result ≡ same_kind a b }
{
    match a {
        Kind::Continuous => match b {
            Kind::Continuous => true,
            Kind::Integer | Kind::Semi => false,
        },
        Kind::Integer => match b {
            Kind::Integer => true,
            Kind::Continuous | Kind::Semi => false,
        },
        Kind::Semi => match b {
            Kind::Semi => true,
            Kind::Continuous | Kind::Integer => false,
        },
    }
}
