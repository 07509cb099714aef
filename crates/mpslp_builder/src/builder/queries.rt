//! What a builder has declared, and with which error a declaration would be rejected.

ghost use Rattle.std.specs.Prelude.{◌≡◌, is_some};
ghost use Rattle.mpslp_builder.specs.Declaration.{by_limits, declare_objective, declare_row, declare_range, declare_marked, declare_integer, declare_binary, declare_semi, have_infinite_side, has_row, has_column, has_coefficient, is_free_row};
ghost use Rattle.mpslp_builder.specs.Refusal.{has_constant, sense_tests, constant_tests, row_tests, rhs_tests, coefficient_tests, refusals, bounds_refusals};
ghost use Rattle.mpslp_builder.specs.Answer.{first_refusal, refused_by};

use crate::builder::Builder;
use mpslp_decimal::Decimal;
use mpslp_types::{BuildFault, Limit};

/// Returns the first error whose test is true, if there is one.
fn refuse(tests: &[(bool, BuildFault)]) -> Result<(), BuildFault>
    ensures { result ≡ refused_by tests.now }
{
    for (holds, fault) in tests {
        if *holds {
            return Err(*fault);
        }
    }
    Ok(())
}

/// Whether no value meets the limits: the lower one is plus infinity, or the upper one is minus infinity.
pub(crate) fn have_infinite_limit(lower: &Limit, upper: &Limit) -> bool
    ensures { result ≡ have_infinite_side (by_limits lower.now upper.now) }
{
    match (lower, upper) {
        (Limit::PlusInf, _) => true,
        (_, Limit::MinusInf) => true,
        _ => false,
    }
}

impl Builder {
    /// Whether the objective has been named.
    pub fn has_objective(&self) -> bool
        ensures { result ≡ is_some self.now.objective }
    {
        self.tables.has_objective()
    }

    /// Whether the constant is declared, as such or as the right-hand side of the objective.
    fn has_constant(&self) -> bool
        ensures { result ≡ has_constant self.now }
    {
        self.constant.is_some() || self.tables.has_objective_rhs()
    }

    /// Whether a row, or the objective, has this name.
    pub fn has_row(&self, name: &[u8]) -> bool
        ensures { result ≡ has_row self.now name.now }
    {
        self.tables.row_ref(name).is_some()
    }

    /// Whether a column has this name.
    pub fn has_column(&self, name: &[u8]) -> bool
        ensures { result ≡ has_column self.now name.now }
    {
        self.tables.has_column(name)
    }

    /// Whether a column has this name. If so, the call after this one that names the column does not look it up again.
    pub fn find_column(&mut self, name: &[u8]) -> bool
        ensures found { result ≡ has_column self.old name.now }
        ensures same { self.new ≡ self.old }
    {
        self.tables.find_column(name)
    }

    /// Whether a row of this name is declared with type N. The objective does not count.
    pub fn is_free_row(&self, name: &[u8]) -> bool
        ensures { result ≡ is_free_row self.now name.now }
    {
        self.tables.is_free_row(name)
    }

    /// Whether a coefficient of this row, or of the objective, is declared in this column.
    pub fn has_coefficient(&self, row: &[u8], column: &[u8]) -> bool
        ensures { result ≡ has_coefficient self.now (record { row = row.now; column = column.now }) }
    {
        self.tables.has_coefficient(row, column)
    }

    /// Returns the error that [`sense`](Self::sense) would return now.
    ///
    /// # Errors
    ///
    /// `DuplicateSense`. No query allocates or returns `OutOfMemory`.
    pub fn check_sense(&self) -> Result<(), BuildFault>
        ensures { result ≡ refused_by (sense_tests self.now) }
    {
        refuse(&[(self.sense.is_some(), BuildFault::DuplicateSense)])
    }

    /// Returns the error that [`objective`](Self::objective) would return now.
    ///
    /// # Errors
    ///
    /// `SecondObjective`, `DuplicateRow`, as from the call.
    pub fn check_objective(&self, name: &[u8]) -> Result<(), BuildFault>
        ensures { result ≡ first_refusal (refusals self.now (declare_objective name.now)) }
    {
        refuse(&[
            (self.has_objective(), BuildFault::SecondObjective),
            (self.tables.has_row(name), BuildFault::DuplicateRow),
        ])
    }

    /// Returns the error that [`constant`](Self::constant) would return now, whatever the value.
    ///
    /// # Errors
    ///
    /// `DuplicateRhs`, as from the call.
    pub fn check_constant(&self) -> Result<(), BuildFault>
        ensures { result ≡ refused_by (constant_tests self.now) }
    {
        refuse(&[(self.has_constant(), BuildFault::DuplicateRhs)])
    }

    /// Returns the error that [`row`](Self::row) would return now, whatever the type.
    ///
    /// # Errors
    ///
    /// `DuplicateRow`, as from the call.
    pub fn check_row(&self, name: &[u8]) -> Result<(), BuildFault>
        ensures { result ≡ refused_by (row_tests self.now name.now) }
    {
        refuse(&[(self.tables.has_row(name), BuildFault::DuplicateRow)])
    }

    /// Returns the error that [`row_limits`](Self::row_limits) would return now.
    ///
    /// # Errors
    ///
    /// `DuplicateRow`, `InfiniteValue`, as from the call.
    pub fn check_row_limits(
        &self,
        name: &[u8],
        lower: &Limit,
        upper: &Limit,
    ) -> Result<(), BuildFault>
        ensures { result ≡ first_refusal (refusals self.now (declare_row name.now (by_limits lower.now upper.now))) }
    {
        refuse(&[
            (self.tables.has_row(name), BuildFault::DuplicateRow),
            (have_infinite_limit(lower, upper), BuildFault::InfiniteValue),
        ])
    }

    /// Returns the error that [`rhs`](Self::rhs) would return now, whatever the value.
    ///
    /// # Errors
    ///
    /// `UnknownRow`, `DuplicateRhs`, as from the call.
    pub fn check_rhs(&self, row: &[u8]) -> Result<(), BuildFault>
        ensures { result ≡ refused_by (rhs_tests self.now row.now) }
    {
        self.tables.rhs_target(row, &self.constant)?;
        Ok(())
    }

    /// Returns the error that [`range`](Self::range) would return now.
    ///
    /// # Errors
    ///
    /// `UnknownRow`, `DuplicateRange`, `RangeOnFree`, `InfiniteValue`, as from the call.
    pub fn check_range(&self, row: &[u8], value: Decimal) -> Result<(), BuildFault>
        ensures { result ≡ first_refusal (refusals self.now (declare_range row.now value)) }
    {
        self.tables.range_target(row, value)?;
        Ok(())
    }

    /// Returns the error that [`coefficient`](Self::coefficient) would return now, whatever the value.
    ///
    /// # Errors
    ///
    /// `UnknownRow`, `UnknownColumn`, `DuplicateEntry`, as from the call.
    pub fn check_coefficient(&self, row: &[u8], column: &[u8]) -> Result<(), BuildFault>
        ensures { result ≡ refused_by (coefficient_tests self.now (record { row = row.now; column = column.now })) }
    {
        self.tables.coefficient_target(row, column)?;
        Ok(())
    }

    /// Returns the error that [`bounds`](Self::bounds) would return now.
    ///
    /// # Errors
    ///
    /// `UnknownColumn`, `DuplicateBound`, `InfiniteValue`, as from the call.
    pub fn check_bounds(
        &self,
        column: &[u8],
        lower: &Option<Limit>,
        upper: &Option<Limit>,
    ) -> Result<(), BuildFault>
        ensures { result ≡ first_refusal (bounds_refusals self.now column.now lower.now upper.now) }
    {
        self.tables.bounds_target(column, lower, upper)?;
        Ok(())
    }

    /// Returns the error that [`marked`](Self::marked) would return now.
    ///
    /// # Errors
    ///
    /// `UnknownColumn`, `SemiContinuous`, as from the call.
    pub fn check_marked(&self, column: &[u8]) -> Result<(), BuildFault>
        ensures { result ≡ first_refusal (refusals self.now (declare_marked column.now)) }
    {
        self.tables.integer_target(column)?;
        Ok(())
    }

    /// Returns the error that [`integer`](Self::integer) would return now.
    ///
    /// # Errors
    ///
    /// `UnknownColumn`, `SemiContinuous`, as from the call.
    pub fn check_integer(&self, column: &[u8]) -> Result<(), BuildFault>
        ensures { result ≡ first_refusal (refusals self.now (declare_integer column.now)) }
    {
        self.tables.integer_target(column)?;
        Ok(())
    }

    /// Returns the error that [`binary`](Self::binary) would return now.
    ///
    /// # Errors
    ///
    /// `UnknownColumn`, `SemiContinuous`, as from the call.
    pub fn check_binary(&self, column: &[u8]) -> Result<(), BuildFault>
        ensures { result ≡ first_refusal (refusals self.now (declare_binary column.now)) }
    {
        self.tables.integer_target(column)?;
        Ok(())
    }

    /// Returns the error that [`semi`](Self::semi) would return now.
    ///
    /// # Errors
    ///
    /// `UnknownColumn`, `SemiContinuous`, as from the call.
    pub fn check_semi(&self, column: &[u8]) -> Result<(), BuildFault>
        ensures { result ≡ first_refusal (refusals self.now (declare_semi column.now)) }
    {
        self.tables.semi_target(column)?;
        Ok(())
    }
}
