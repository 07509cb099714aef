//! Limits of rows and bounds of columns, as an LP file gives them.

ghost use Rattle.std.specs.Prelude.{◌≡◌, IsTrue};
ghost use Rattle.mpslp_types.specs.Limit.{is_given, limit_of};
ghost use Rattle.mpslp_lp_grammar.specs.Items.{infinity};

use crate::signs::Sign;
use mpslp_decimal::Decimal;
use mpslp_model::Limit;
use std::marker::Model;

/// A limit that an LP file gives: a finite value with magnitude below 1e20, or an infinity. Contracts see it as a `Limit`.
#[derive(Drop)]
pub struct GivenLimit {
    limit: Limit,
}

impl Model for GivenLimit {
    ghost use Rattle.std.specs.Prelude.{IsTrue};
    ghost use Rattle.mpslp_types.specs.Limit.{is_given};
    ghost use Rattle.mpslp_types.specs.declared.kinds.Limit.{Limit};

    ghost Value = { Limit };

    ghost view = { λ g. g.limit };

    ghost invariant = { λ g. IsTrue (is_given g.limit) };
}

impl GivenLimit {
    /// The limit that a number gives.
    pub(crate) fn of(value: Decimal) -> GivenLimit
        ensures { result ≡ limit_of value }
    {
        GivenLimit {
            limit: Limit::of(value),
        }
    }

    /// Minus or plus infinity.
    pub(crate) fn infinity(sign: Sign) -> GivenLimit
        ensures { result ≡ infinity sign }
    {
        GivenLimit {
            limit: match sign {
                Sign::Plus => Limit::PlusInf,
                Sign::Minus => Limit::MinusInf,
            },
        }
    }

    /// The limit itself.
    pub(crate) fn limit(&self) -> Limit
        ensures value { result ≡ self.now }
        ensures given { IsTrue (is_given result) }
    {
        self.limit
    }
}
