//! The builder: the parts of a model are declared in any order.

mod finish;
mod queries;

ghost use Rattle.std.specs.Prelude.{◌≡◌, IsTrue, Ok};
ghost use Rattle.std.specs.Option.{ForSome};
ghost use Rattle.mpslp_types.specs.Limit.{is_given};
ghost use Rattle.mpslp_builder.specs.Declaration.{empty_draft, declare_sense, declare_objective, declare_constant, declare_row, by_type, by_limits, declare_rhs, declare_range, declare_column, declare_coefficient, declare_marked, declare_integer, declare_binary, declare_semi, is_free_row, rhs_declared, bounds_declared};
ghost use Rattle.mpslp_builder.specs.Refusal.{refusals, bounds_refusals};
ghost use Rattle.mpslp_builder.specs.Answer.{AnswersTo, AnswersToAll, IsNotOutOfMemory};
ghost use Rattle.mpslp_builder.specs.Calls.{declare_property};

use crate::builder::queries::have_infinite_limit;
use crate::tables::Tables;
use mpslp_builder_parts::{Property, RowParts};
use mpslp_decimal::Decimal;
use mpslp_decimal::laws::each_value_is_a_decimal;
use mpslp_types::laws::each_name_is_legal;
use mpslp_types::{BuildFault, FIXED_SEED, HashSeed, Limit, Name, RowType, Sense};
use std::alloc::Global;
use std::marker::Model;

/// A model in the making. Its parts are declared one by one, in any order in which rows and columns are declared before
/// they are used. Contracts see what has been declared.
///
/// A call that is rejected returns the first error that applies, in the order in which the call lists them. Only a call
/// without such an error may return [`OutOfMemory`](BuildFault::OutOfMemory). In both cases the builder is unchanged.
///
/// Each declaring call has a query, such as [`check_rhs`](Self::check_rhs) for [`rhs`](Self::rhs). It returns the error
/// that the call would return, allocates nothing and changes nothing.
#[derive(Debug, Drop)]
pub struct Builder {
    pub(crate) alloc: Global,
    pub(crate) sense: Option<Sense>,
    pub(crate) constant: Option<Decimal>,
    pub(crate) tables: Tables,
}

impl Model for Builder {
    ghost use Rattle.mpslp_builder.specs.Declaration.{Draft};

    ghost Value = { Draft };

    ghost use Rattle.mpslp_builder.specs.Made.{IsMade};
    ghost use Rattle.mpslp_builder.specs.Tables.{draft, IsNumbered};

    ghost view = { λ b. draft b.sense b.constant b.tables };

    ghost invariant = { λ b. IsMade (draft b.sense b.constant b.tables) × IsNumbered b.tables };
}

impl Builder {
    /// A builder without declarations. Allocates nothing.
    ///
    /// The hashes of names have the fixed seed, which everybody knows: names can be chosen so that many declarations take quadratic
    /// time. For names that somebody else chose take [`new_seeded`](Self::new_seeded) with random bits.
    pub fn new(alloc: Global) -> Builder
        ensures { result ≡ empty_draft }
    {
        Builder::new_seeded(alloc, FIXED_SEED)
    }

    /// As [`new`](Self::new), with a seed for the hashes of names. Only the time of the builder's calls depends on the seed.
    pub fn new_seeded(alloc: Global, seed: HashSeed) -> Builder
        ensures { result ≡ empty_draft }
    {
        Builder {
            alloc,
            sense: None,
            constant: None,
            tables: Tables::new(alloc, seed),
        }
    }

    /// Declares the sense. If it is never declared, the objective is minimized.
    ///
    /// # Errors
    ///
    /// `DuplicateSense` if the sense is already declared. This call allocates nothing.
    pub fn sense(&mut self, sense: Sense) -> Result<(), BuildFault>
        ensures answers { AnswersTo self.old (declare_sense sense) result self.new }
        ensures memory { IsNotOutOfMemory result }
    {
        self.check_sense()?;
        self.sense = Some(sense);
        Ok(())
    }

    /// Names the objective. No row may have the same name.
    ///
    /// # Errors
    ///
    /// `SecondObjective` if the objective already has a name, `DuplicateRow` if a row has this one. The name is then dropped.
    /// This call allocates nothing.
    pub fn objective(&mut self, name: Name) -> Result<(), BuildFault>
        ensures answers { AnswersTo self.old (declare_objective name) result self.new }
        ensures memory { IsNotOutOfMemory result }
    {
        self.check_objective(name.as_bytes())?;
        self.tables.name_objective(name);
        Ok(())
    }

    /// Declares the constant of the objective. It is 0 if it is declared neither here nor as a [right-hand side](Self::rhs).
    ///
    /// # Errors
    ///
    /// `DuplicateRhs` if the constant is already declared, here or as a right-hand side of the objective. This call allocates
    /// nothing.
    pub fn constant(&mut self, value: Decimal) -> Result<(), BuildFault>
        ensures answers { AnswersTo self.old (declare_constant value) result self.new }
        ensures memory { IsNotOutOfMemory result }
    {
        self.check_constant()?;
        each_value_is_a_decimal(value);
        self.constant = Some(value);
        Ok(())
    }

    /// Declares a row by its type. Its right-hand side is 0 if none is declared.
    ///
    /// # Errors
    ///
    /// `DuplicateRow` if a row or the objective has the name; `OutOfMemory`, also if there are already 4,294,967,294 rows. The
    /// name is then dropped.
    pub fn row(&mut self, name: Name, row_type: RowType) -> Result<(), BuildFault>
        ensures { AnswersTo self.old (declare_row name (by_type row_type)) result self.new }
    {
        each_name_is_legal(&name);
        self.tables.add_row(name, RowParts::of_type(row_type))
    }

    /// Declares a row by its limits. A finite limit must have a magnitude below 10^20. No right-hand side and no range can be
    /// declared for this row.
    ///
    /// # Errors
    ///
    /// `DuplicateRow` if a row or the objective has the name; `InfiniteValue` if the lower limit is plus infinity or the upper
    /// one is minus infinity; `OutOfMemory`, also if there are already 4,294,967,294 rows. The name is then dropped.
    pub fn row_limits(&mut self, name: Name, lower: Limit, upper: Limit) -> Result<(), BuildFault>
        requires lower { IsTrue (is_given lower) }
        requires upper { IsTrue (is_given upper) }
        ensures { AnswersTo self.old (declare_row name (by_limits lower upper)) result self.new }
    {
        if have_infinite_limit(&lower, &upper) {
            return self.check_row_limits(name.as_bytes(), &lower, &upper);
        }
        each_name_is_legal(&name);
        self.tables.add_row(name, RowParts::of_limits(lower, upper))
    }

    /// Declares the right-hand side of a row. For the objective it is the negated constant. For a row of type
    /// [`Free`](RowType::Free) it declares nothing, may be repeated, and is never rejected.
    ///
    /// # Errors
    ///
    /// `UnknownRow` if neither a row nor the objective has the name, `DuplicateRhs` if the right-hand side is already declared.
    /// This call allocates nothing.
    pub fn rhs(&mut self, row: &[u8], value: Decimal) -> Result<(), BuildFault>
        ensures answers { AnswersToAll (refusals self.old (declare_rhs row.now value)) self.old (rhs_declared self.old row.now value) result self.new }
        ensures free { IsTrue (is_free_row self.old row.now) → result ≡ Ok tt }
        ensures memory { IsNotOutOfMemory result }
    {
        let place = self.tables.rhs_target(row, &self.constant)?;
        if self.tables.is_free(place) {
            return Ok(());
        }
        each_value_is_a_decimal(value);
        self.tables.put_rhs(place, value);
        Ok(())
    }

    /// Declares the range value of a row. Its magnitude is the distance between the row's other limit and its right-hand side.
    /// The row's type determines the direction; for type [`Equal`](RowType::Equal) the sign of the value does.
    ///
    /// # Errors
    ///
    /// `UnknownRow` if neither a row nor the objective has the name, `DuplicateRange` if the range is already declared,
    /// `RangeOnFree` for the objective or a row of type [`Free`](RowType::Free), `InfiniteValue` if the magnitude is 10^20 or
    /// more. This call allocates nothing.
    pub fn range(&mut self, row: &[u8], value: Decimal) -> Result<(), BuildFault>
        ensures answers { AnswersTo self.old (declare_range row.now value) result self.new }
        ensures memory { IsNotOutOfMemory result }
    {
        let index = self.tables.range_target(row, value)?;
        each_value_is_a_decimal(value);
        self.tables.put_range(index, value);
        Ok(())
    }

    /// Declares a column. If it is already declared, nothing changes.
    ///
    /// # Errors
    ///
    /// Only `OutOfMemory`. The name is then dropped.
    pub fn column(&mut self, name: Name) -> Result<(), BuildFault>
        ensures { AnswersTo self.old (declare_column name) result self.new }
    {
        each_name_is_legal(&name);
        self.tables.start_column(name)?;
        Ok(())
    }

    /// Declares a coefficient of a row, or of the objective. A zero counts as a declaration, but it is not part of the model.
    ///
    /// # Errors
    ///
    /// `UnknownRow` if neither a row nor the objective has the name of the row, `UnknownColumn` if no column has that of the
    /// column, `DuplicateEntry` if this coefficient is already declared; `OutOfMemory`, also if there are already 4,294,967,295
    /// coefficients, or as many columns before this one.
    pub fn coefficient(
        &mut self,
        row: &[u8],
        column: &[u8],
        value: Decimal,
    ) -> Result<(), BuildFault>
        ensures { AnswersTo self.old (declare_coefficient (record { row = row.now; column = column.now }) value) result self.new }
    {
        let place = self.tables.coefficient_target(row, column)?;
        each_value_is_a_decimal(value);
        self.tables.put_cell(place.column, place.row, value)?;
        Ok(())
    }

    /// Declares the given bounds of a column: both, one or none. A finite bound must have a magnitude below 10^20.
    ///
    /// Without a declaration the lower bound is 0. The upper bound is then plus infinity, except that it is 1 if the column is
    /// [marked](Self::marked) and has no declared bound at all.
    ///
    /// # Errors
    ///
    /// Each is checked for both bounds before the next: `UnknownColumn` if no column has the name, `DuplicateBound` if a given
    /// bound is already declared, `InfiniteValue` if the lower bound is plus infinity or the upper one is minus infinity,
    /// `OutOfMemory`.
    pub fn bounds(
        &mut self,
        column: &[u8],
        lower: Option<Limit>,
        upper: Option<Limit>,
    ) -> Result<(), BuildFault>
        requires lower { ForSome lower (λ side. IsTrue (is_given side)) }
        requires upper { ForSome upper (λ side. IsTrue (is_given side)) }
        ensures { AnswersToAll (bounds_refusals self.old column.now lower upper) self.old (bounds_declared column.now lower upper) result self.new }
    {
        let number = self.tables.bounds_target(column, &lower, &upper)?;
        self.tables.put_bounds(number, lower, upper)?;
        Ok(())
    }

    /// Declares that a column has a property.
    fn declare(&mut self, column: &[u8], property: Property) -> Result<(), BuildFault>
        ensures answers { AnswersTo self.old (declare_property property column.now) result self.new }
        ensures memory { IsNotOutOfMemory result }
    {
        let number = self.tables.property_target(column, property)?;
        self.tables.put_property(number, property);
        Ok(())
    }

    /// Declares that a column is in an integer block of an MPS file. It is integer, and its upper bound is 1 if it has no
    /// declared bound. The call may be repeated.
    ///
    /// # Errors
    ///
    /// `UnknownColumn` if no column has the name, `SemiContinuous` if the column is semi-continuous. This call allocates nothing.
    pub fn marked(&mut self, column: &[u8]) -> Result<(), BuildFault>
        ensures answers { AnswersTo self.old (declare_marked column.now) result self.new }
        ensures memory { IsNotOutOfMemory result }
    {
        self.declare(column, Property::Marked)
    }

    /// Declares that a column is integer. The call may be repeated.
    ///
    /// # Errors
    ///
    /// `UnknownColumn` if no column has the name, `SemiContinuous` if the column is semi-continuous. This call allocates nothing.
    pub fn integer(&mut self, column: &[u8]) -> Result<(), BuildFault>
        ensures answers { AnswersTo self.old (declare_integer column.now) result self.new }
        ensures memory { IsNotOutOfMemory result }
    {
        self.declare(column, Property::Integer)
    }

    /// Declares that a column is binary: it is integer, its upper bound is 1 if none is declared, and its bounds must be within
    /// 0 and 1. The call may be repeated.
    ///
    /// # Errors
    ///
    /// `UnknownColumn` if no column has the name, `SemiContinuous` if the column is semi-continuous. This call allocates nothing.
    pub fn binary(&mut self, column: &[u8]) -> Result<(), BuildFault>
        ensures answers { AnswersTo self.old (declare_binary column.now) result self.new }
        ensures memory { IsNotOutOfMemory result }
    {
        self.declare(column, Property::Binary)
    }

    /// Declares that a column is semi-continuous: it is 0 or within its bounds. Before or after this call its upper bound must be
    /// declared, finite and above 0; its lower bound must be at least 0. The call may be repeated.
    ///
    /// # Errors
    ///
    /// `UnknownColumn` if no column has the name, `SemiContinuous` if the column is [marked](Self::marked),
    /// [integer](Self::integer) or [binary](Self::binary). This call allocates nothing.
    pub fn semi(&mut self, column: &[u8]) -> Result<(), BuildFault>
        ensures answers { AnswersTo self.old (declare_semi column.now) result self.new }
        ensures memory { IsNotOutOfMemory result }
    {
        self.declare(column, Property::Semi)
    }
}
