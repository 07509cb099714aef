//! `finish`, which makes the model of a builder's declarations.

ghost use Rattle.std.specs.Prelude.{◌≡◌, IsTrue, IfOk, None, Some, is_some, unwrap_or};
ghost use Rattle.mpslp_decimal.specs.Decimal.{negated, zero_number};
ghost use Rattle.mpslp_builder.specs.Made.{IsMade};
ghost use Rattle.mpslp_builder.specs.Meaning.{DraftMeans};
ghost use Rattle.mpslp_builder.specs.FileFault.{file_fault};
ghost use Rattle.mpslp_builder.specs.FaultFound.{entry_name, fault_found};
ghost use Rattle.mpslp_builder.specs.Finish.{Finishes};
ghost use Rattle.mpslp_model_core.specs.Numbered.{each_part};
ghost use Rattle.mpslp_builder_parts.specs.Parts.{rhs_in, limits_in};
ghost use Rattle.mpslp_types.specs.declared.kinds.Sense.TheVariants.{Minimize};
ghost use Rattle.mpslp_builder.specs.Tables.{name_of_objective, draft, IsNumbered};

use crate::builder::Builder;
use crate::tables::file_faults::FoundFault;
use crate::tables::hints::drop_hints;
use crate::tables::{NameMap, Tables};
use mpslp_builder_parts::{ObjectiveParts, RowParts, ordered, ranks_of, row_of};
use mpslp_decimal::{Decimal, PackedDecimal};
use mpslp_model_core::{
    Model, ModelColumns, ModelParts, ModelRow, kind_of_column_fault, kind_of_row_fault,
};
use mpslp_types::{Fault, FaultKind, Name, ReadFault, Sense};
use std::alloc::{AllocError, Global};
use std::mem::drop;

/// The rows of a model with their names, in the order in which they were declared.
///
/// They are made from the map itself: a vector of what is declared beside it would be the peak of memory.
fn rows_in(alloc: Global, rows: NameMap<RowParts>) -> Result<Vec<(Name, ModelRow)>, AllocError>
    ensures { IfOk result (λ made. made.items ≡ each_part limits_in rows.entries) }
{
    let mut made = Vec::with_capacity(alloc, rows.len())?;
    for (name, parts) in rows {
        made.push((name, row_of(alloc, &parts)?))?;
    }
    Ok(made)
}

/// The constant of the objective: as declared, or else its negated right-hand side.
fn constant_of(constant: Option<Decimal>, rhs: &Option<PackedDecimal>) -> Decimal
    ensures { result ≡ unwrap_or constant (negated (unwrap_or rhs.now zero_number)) }
{
    match (constant, rhs) {
        (Some(constant), _) => constant,
        (None, Some(value)) => value.value().negate(),
        (None, None) => Decimal::zero().negate(),
    }
}

/// The parts of a model. The objective has a name.
fn parts_of(
    sense: Option<Sense>,
    constant: Option<Decimal>,
    objective: Option<ObjectiveParts>,
    rows: Vec<(Name, ModelRow)>,
    columns: ModelColumns,
) -> ModelParts
    requires { IsTrue (is_some objective) }
    ensures sense { result.sense ≡ unwrap_or sense Minimize }
    ensures objective { name_of_objective objective ≡ Some result.objective }
    ensures constant { result.constant ≡ unwrap_or constant (negated (unwrap_or (rhs_in objective) zero_number)) }
    ensures rows { result.rows.items ≡ rows.items }
    ensures columns { result.columns ≡ columns }
{
    let ObjectiveParts { name, rhs } = objective.unwrap();
    ModelParts {
        sense: sense.unwrap_or(Sense::Minimize),
        objective: name,
        constant: constant_of(constant, &rhs),
        rows,
        columns,
    }
}

/// The model of tables without a whole-file error.
pub(crate) fn into_model(
    alloc: Global,
    sense: Option<Sense>,
    constant: Option<Decimal>,
    tables: Tables,
) -> Result<Model, AllocError>
    requires made { IsMade (draft sense constant tables) }
    requires numbered { IsNumbered tables }
    requires objective { IsTrue (is_some tables.objective) }
    requires fault { file_fault (draft sense constant tables) ≡ None }
    ensures { IfOk result (DraftMeans (draft sense constant tables)) }
{
    tables.each_name_occurs_once();
    let Tables {
        objective,
        rows,
        columns,
        recent_row: _,
        recent: _,
        hints,
    } = tables;
    drop_hints(hints);
    let (row_order, rows) = ordered(alloc, rows_in(alloc, rows)?)?;
    let ranks = ranks_of(alloc, &row_order)?;
    drop(row_order);
    let (spans, cells) = columns.into_columns(&ranks)?;
    drop(ranks);
    let (column_order, spans) = ordered(alloc, spans)?;
    drop(column_order);
    let columns = ModelColumns::of(spans, cells);
    Model::of_parts(alloc, parts_of(sense, constant, objective, rows, columns))
}

/// The name of the row at an index, moved out of the map without a copy.
fn name_out_of(mut rows: NameMap<RowParts>, index: usize) -> Option<Name>
    ensures { result ≡ entry_name rows.entries index }
{
    match rows.swap_remove_index(index) {
        Some((name, _parts)) => Some(name),
        None => None,
    }
}

/// The error that was found, with its name.
fn into_fault(tables: Tables, found: FoundFault) -> Fault
    ensures { result ≡ fault_found tables found }
{
    let (kind, name) = match found {
        FoundFault::NoColumns => (FaultKind::NoColumns, None),
        FoundFault::Row(fault, index) => {
            (kind_of_row_fault(fault), name_out_of(tables.rows, index))
        }
        FoundFault::Column(fault, index) => {
            (kind_of_column_fault(fault), tables.columns.take_name(index))
        }
    };
    Fault {
        kind,
        line: 0,
        name,
    }
}

impl Builder {
    /// Returns the model that was declared, or the first whole-file error. The objective must have a name.
    ///
    /// # Errors
    ///
    /// `File` with an error of line 0. The kinds are checked in this order, each over all rows or columns, and the reported name
    /// is the first one in byte order that has the error:
    ///
    /// - `NoColumns`: there is no column;
    /// - `InfiniteLimit`: a right-hand side is infinite so that its row cannot be met, or on an equation or with a range;
    /// - `RangeInexact`: a computed limit of a row, or the distance between both limits, is not a decimal;
    /// - `LimitTooLarge`: a computed limit, or the distance, has a magnitude of 10^20 or more;
    /// - `LimitsCrossed`: the lower limit is above the upper one;
    /// - `NegativeUpper`: an upper bound of a column is below 0 and no lower bound is declared;
    /// - `BoundsCrossed`: the lower bound is above the upper one;
    /// - `BinaryBounds`: the bounds of a binary column are not within 0 and 1;
    /// - `SemiBounds`: the lower bound of a semi-continuous column is below 0, or its upper bound is infinite or not above 0.
    ///
    /// `OutOfMemory` only if there is none of these, also for more than 4,294,967,296 columns.
    pub fn finish(self) -> Result<Model, ReadFault>
        requires { IsTrue (is_some self.objective) }
        ensures { Finishes self result }
    {
        let alloc = self.alloc;
        match self.finish_by_columns() {
            Ok(model) => match model.with_row_lists(alloc) {
                Ok(model) => Ok(model),
                Err(_) => Err(ReadFault::OutOfMemory),
            },
            Err(fault) => Err(fault),
        }
    }

    /// Returns the same as [`finish`](Builder::finish), but a model without lists by rows. Use it for a model that is compared,
    /// read by columns or written as MPS; before it is written as LP, or read by rows, call [`Model::with_row_lists`].
    ///
    /// # Errors
    ///
    /// As [`finish`](Builder::finish).
    pub fn finish_by_columns(self) -> Result<Model, ReadFault>
        requires { IsTrue (is_some self.objective) }
        ensures { Finishes self result }
    {
        let Builder {
            alloc,
            sense,
            constant,
            tables,
        } = self;
        match tables.first_fault() {
            Some(found) => Err(ReadFault::File(into_fault(tables, found))),
            None => match into_model(alloc, sense, constant, tables) {
                Ok(model) => Ok(model),
                Err(_) => Err(ReadFault::OutOfMemory),
            },
        }
    }
}
