//! Limits in packed form, and those of the rows and columns that `ModelRow` and `ModelBounds` keep in a box. A limit takes 24
//! bytes.

ghost use Rattle.std.specs.Prelude.{◌≡◌};

use crate::sides::{ColumnBounds, RowLimits};
use mpslp_decimal::PackedDecimal;
use mpslp_types::{Kind, Limit};
use std::marker::Model;

/// A limit or a bound in packed form. Contracts see it as a `Limit`.
#[derive(Debug, Drop)]
pub struct PackedLimit {
    stored: StoredLimit,
}

/// A limit without padding for alignment.
#[derive(Debug, Drop)]
enum StoredLimit {
    /// Minus infinity.
    MinusInf,
    /// A number.
    Finite(PackedDecimal),
    /// Plus infinity.
    PlusInf,
}

const _: () = prove!(size_of::<PackedLimit>() == 24);

impl Model for PackedLimit {
    ghost use Rattle.mpslp_types.specs.declared.kinds.Limit.{Limit};
    ghost use Rattle.mpslp_model_core.specs.Packed.{limit_of_stored};

    ghost Value = { Limit };

    ghost view = { λ side. limit_of_stored side.stored };
}

impl PackedLimit {
    /// Packs a limit.
    pub fn of(limit: Limit) -> PackedLimit
        ensures { result ≡ limit }
    {
        let stored = match limit {
            Limit::MinusInf => StoredLimit::MinusInf,
            Limit::Finite(value) => StoredLimit::Finite(PackedDecimal::of(value)),
            Limit::PlusInf => StoredLimit::PlusInf,
        };
        PackedLimit { stored }
    }

    /// The limit.
    pub fn limit(&self) -> Limit
        ensures { result ≡ self.now }
    {
        match &self.stored {
            StoredLimit::MinusInf => Limit::MinusInf,
            StoredLimit::Finite(value) => Limit::Finite(value.value()),
            StoredLimit::PlusInf => Limit::PlusInf,
        }
    }
}

/// The limits of a row in packed form. Contracts see them as a `Row`.
#[derive(Debug, Drop)]
pub struct PackedRow {
    lower: PackedLimit,
    upper: PackedLimit,
}

impl Model for PackedRow {
    ghost use Rattle.mpslp_model_core.specs.Model.{Row};

    ghost Value = { Row };

    ghost view = { λ r. record { lower = r.lower; upper = r.upper } };
}

impl PackedRow {
    /// Packs the limits.
    pub fn of(limits: RowLimits) -> PackedRow
        ensures { result ≡ limits }
    {
        PackedRow {
            lower: PackedLimit::of(limits.lower),
            upper: PackedLimit::of(limits.upper),
        }
    }

    /// The limits.
    pub fn limits(&self) -> RowLimits
        ensures { result ≡ self.now }
    {
        RowLimits {
            lower: self.lower.limit(),
            upper: self.upper.limit(),
        }
    }
}

/// The type and bounds of a column in packed form. Contracts see them as a `Column`.
#[derive(Debug, Drop)]
pub struct PackedColumn {
    lower: PackedLimit,
    upper: PackedLimit,
    kind: Kind,
}

impl Model for PackedColumn {
    ghost use Rattle.mpslp_model_core.specs.Model.{Column};

    ghost Value = { Column };

    ghost view = { λ c. record { kind = c.kind; lower = c.lower; upper = c.upper } };
}

impl PackedColumn {
    /// Packs the type and bounds.
    pub fn of(bounds: ColumnBounds) -> PackedColumn
        ensures { result ≡ bounds }
    {
        PackedColumn {
            lower: PackedLimit::of(bounds.lower),
            upper: PackedLimit::of(bounds.upper),
            kind: bounds.kind,
        }
    }

    /// The type and bounds.
    pub fn bounds(&self) -> ColumnBounds
        ensures { result ≡ self.now }
    {
        ColumnBounds {
            kind: self.kind,
            lower: self.lower.limit(),
            upper: self.upper.limit(),
        }
    }
}
