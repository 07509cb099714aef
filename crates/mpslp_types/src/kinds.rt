//! The types of rows and columns, their limits and bounds, and the objective sense.

ghost use Rattle.std.specs.Prelude.{◌≡◌, IsTrue, not};
ghost use Rattle.std.specs.Ordering.{is_lt};
ghost use Rattle.mpslp_decimal.specs.Decimal.{decimal_cmp};
ghost use Rattle.mpslp_types.specs.Limit.{is_at_most, is_given, limit_of};

use mpslp_decimal::Decimal;
use mpslp_decimal::laws::each_value_is_a_decimal;

/// The objective sense.
#[derive(Clone, Copy, Debug, PartialEq, Eq)]
pub enum Sense {
    /// The objective is minimized.
    Minimize,
    /// The objective is maximized.
    Maximize,
}

/// The type of a column.
#[derive(Clone, Copy, Debug, PartialEq, Eq)]
pub enum Kind {
    /// Any value within the bounds.
    Continuous,
    /// Only whole numbers within the bounds.
    Integer,
    /// Semi-continuous: 0, or any value within the bounds. The upper bound is finite and above 0, the lower bound at least 0.
    Semi,
}

/// A limit of a row, or a bound of a column.
#[derive(Clone, Copy, Debug, PartialEq, Eq, PartialOrd, Ord)]
pub enum Limit {
    /// Minus infinity: below every number.
    MinusInf,
    /// A number with a magnitude below 10^20.
    Finite(Decimal),
    /// Plus infinity: above every number.
    PlusInf,
}

impl Limit {
    /// The limit for a given value: a magnitude of 10^20 or more is the infinity of the value's sign.
    pub fn of(value: Decimal) -> Limit
        ensures value { result ≡ limit_of value }
        ensures given { IsTrue (is_given result) }
    {
        each_value_is_a_decimal(value);
        if !value.is_infinite_size() {
            return Limit::Finite(value);
        }
        if value.is_negative() {
            Limit::MinusInf
        } else {
            Limit::PlusInf
        }
    }

    /// Whether this limit is at most the other one: minus infinity comes first, plus infinity last.
    pub fn is_at_most(self, other: Limit) -> bool
        ensures { result ≡ is_at_most self other }
    {
        match self {
            Limit::MinusInf => true,
            Limit::Finite(value) => match other {
                Limit::MinusInf => false,
                Limit::Finite(bound) => is_ordered(value, bound),
                Limit::PlusInf => true,
            },
            Limit::PlusInf => match other {
                Limit::PlusInf => true,
                _ => false,
            },
        }
    }
}

/// Whether the first number is at most the second.
fn is_ordered(a: Decimal, b: Decimal) -> bool
    ensures { result ≡ not (is_lt (decimal_cmp b a)) }
{
    each_value_is_a_decimal(a);
    each_value_is_a_decimal(b);
    !b.cmp(&a).is_lt()
}

/// How the right-hand side of a row limits it.
#[derive(Clone, Copy, Debug, PartialEq, Eq)]
pub enum RowType {
    /// Not at all; letter N.
    Free,
    /// The row is at most its right-hand side; letter L.
    AtMost,
    /// The row is at least its right-hand side; letter G.
    AtLeast,
    /// The row equals its right-hand side; letter E.
    Equal,
}
