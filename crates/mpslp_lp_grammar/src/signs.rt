//! Signs of items and sides.

ghost use Rattle.std.specs.Prelude.{◌≡◌};
ghost use Rattle.mpslp_lp_grammar.specs.Items.{product, apply_sign};

use mpslp_decimal::Decimal;

/// A sign of a number or a name.
#[derive(Clone, Copy)]
pub enum Sign {
    /// `+`, or no sign.
    Plus,
    /// `-`.
    Minus,
}

impl Sign {
    /// The sign of two signs, one after the other: a minus if one of them is a minus and the other is not.
    pub(crate) fn times(self, more: Sign) -> Sign
        ensures { result ≡ product self more }
    {
        match self {
            Sign::Plus => more,
            Sign::Minus => match more {
                Sign::Plus => Sign::Minus,
                Sign::Minus => Sign::Plus,
            },
        }
    }

    /// The value with the sign before it: its negative after a minus.
    pub fn of(self, value: Decimal) -> Decimal
        ensures { result ≡ apply_sign self value }
    {
        match self {
            Sign::Plus => value,
            Sign::Minus => value.negate(),
        }
    }
}
