//! The call that writes the text of a model given as arrays.

ghost use Rattle.std.specs.Prelude.{◌≡◌, ◌+◌, ◌<◌, ◌≤◌, None, Some, length, drop, slice_range, IsOkUnless};
ghost use Rattle.mpslp_model_core.specs.Model.{LinearModel};
ghost use Rattle.mpslp_types.specs.declared.faults.NameAt.{NameAt};
ghost use Rattle.mpslp_builder.specs.Declaration.{Draft};
ghost use Rattle.mpslp_conversions.specs.Conversions.{IsErrUnless};
ghost use Rattle.mpslp_write.specs.ByForm.{unfit_in, text_in};
ghost use Rattle.mpslp_c.specs.Stored.{TakesSteps, placed, row_items, element_items, own_items, elements_end, column_items, first_column_steps, items, Defines};
ghost use Rattle.mpslp_c.specs.Answers.{format_of, TakesItems, HasFault, IsStoredModel, IsStoring, IsStoreReturned, IsStoreAnswer, store_status};

use crate::answers::{NOT_LP, OK, OUT_OF_MEMORY, REFUSED, UNKNOWN_FORMAT};
use crate::arrays::{MpslpColumn, MpslpElement, MpslpModel, MpslpRow};
use crate::calls::MpslpText;
use crate::faults::{
    AT_COLUMN, AT_ELEMENT, AT_OBJECTIVE, AT_ROW, ItemFault, MpslpFault, StoreFault, set_store_fault,
};
use crate::stored_items::{
    bytes_at, declare_stored_column, declare_stored_element, declare_stored_objective,
    declare_stored_row,
};
use crate::texts::format_of;
use mpslp_conversions::{ConvertFault, text_of};
use mpslp_lines::LineError;
use mpslp_model::laws::each_builder_is_made;
use mpslp_model::{Builder, FaultKind, Format, HashSeed, Model, ReadFault};
use mpslp_types::Form;
use mpslp_write::{Lp, Mps};
use std::alloc::Global;

/// The result of an item, with its place if it has an error.
fn placed(place: u32, number: usize, answer: Result<(), LineError>) -> Result<(), StoreFault>
    ensures { result ≡ placed place number answer }
{
    match answer {
        Ok(()) => Ok(()),
        Err(LineError::Fault(kind)) => Err(StoreFault::Item(ItemFault {
            kind,
            place,
            number,
        })),
        Err(LineError::OutOfMemory) => Err(StoreFault::OutOfMemory),
    }
}

/// Declares all rows.
fn declare_rows(
    alloc: Global,
    names: &[u8],
    rows: &[MpslpRow],
    builder: &mut Builder,
) -> Result<(), StoreFault>
    ensures { TakesItems (row_items names.now 0 rows.now) builder.old builder.new result }
{
    for i in 0..rows.len() {
        placed(
            AT_ROW,
            i,
            declare_stored_row(alloc, names, rows[i], builder),
        )?;
    }
    Ok(())
}

/// Declares the elements of a column, from one index to another.
fn declare_elements(
    names: &[u8],
    rows: &[MpslpRow],
    column: &[u8],
    elements: &[MpslpElement],
    first: usize,
    end: usize,
    builder: &mut Builder,
) -> Result<(), StoreFault>
    requires rising { first ≤ end }
    requires within { end ≤ length elements.now }
    ensures { TakesItems (element_items names.now rows.now column.now first (slice_range elements.now first end)) builder.old builder.new result }
{
    for k in first..end {
        placed(
            AT_ELEMENT,
            k,
            declare_stored_element(names, rows, column, elements[k], builder),
        )?;
    }
    Ok(())
}

/// Declares the elements of the column of index `j`, which end before `end`.
fn declare_own_elements(
    names: &[u8],
    rows: &[MpslpRow],
    elements: &[MpslpElement],
    j: usize,
    column: MpslpColumn,
    end: usize,
    builder: &mut Builder,
) -> Result<(), StoreFault>
    ensures { TakesItems (own_items names.now rows.now elements.now j column end) builder.old builder.new result }
{
    if column.first <= end && end <= elements.len() {
        declare_elements(
            names,
            rows,
            bytes_at(names, column.name),
            elements,
            column.first,
            end,
            builder,
        )
    } else {
        placed(AT_COLUMN, j, Err(LineError::Fault(FaultKind::ColumnSplit)))
    }
}

/// Where the elements of the column before index `j` end: where those of the column `j` begin, or where all end.
fn elements_end(columns: &[MpslpColumn], j: usize, count: usize) -> usize
    ensures { result ≡ elements_end (drop j columns.now) count }
{
    match columns.get(j) {
        Some(column) => column.first,
        None => count,
    }
}

/// Declares all columns and their elements.
fn declare_columns(
    alloc: Global,
    model: &MpslpModel,
    objective: &[u8],
    builder: &mut Builder,
) -> Result<(), StoreFault>
    ensures { let items = column_items model.now.names.now objective.now model.now.rows.now model.now.elements.now 0 model.now.columns.now in
        TakesItems items builder.old builder.new result }
{
    for j in 0..model.columns.len() {
        let column = model.columns[j];
        placed(
            AT_COLUMN,
            j,
            declare_stored_column(alloc, model.names, objective, column, builder),
        )?;
        let end = elements_end(model.columns, j + 1, model.elements.len());
        declare_own_elements(
            model.names,
            model.rows,
            model.elements,
            j,
            column,
            end,
            builder,
        )?;
    }
    Ok(())
}

/// Checks that no element comes before those of the first column.
fn check_first(columns: &[MpslpColumn]) -> Result<(), LineError>
    ensures { (all : Draft) → TakesSteps (first_column_steps columns.now) all all result }
{
    match columns.first() {
        Some(column) if column.first > 0 => Err(LineError::Fault(FaultKind::ColumnSplit)),
        _ => Ok(()),
    }
}

/// Declares all items.
fn declare_items(alloc: Global, model: &MpslpModel, builder: &mut Builder) -> Result<(), StoreFault>
    ensures { TakesItems (items model.now) builder.old builder.new result }
{
    placed(
        AT_OBJECTIVE,
        0,
        declare_stored_objective(alloc, model, builder),
    )?;
    declare_rows(alloc, model.names, model.rows, builder)?;
    placed(AT_COLUMN, 0, check_first(model.columns))?;
    declare_columns(
        alloc,
        model,
        bytes_at(model.names, model.objective),
        builder,
    )
}

/// The model that arrays define.
pub(crate) fn stored_model(
    alloc: Global,
    seed: HashSeed,
    model: &MpslpModel,
) -> Result<Model, StoreFault>
    ensures answer { IsStoredModel model.now result }
    ensures accepts { (m : LinearModel) → Defines model.now m → IsOkUnless result StoreFault.OutOfMemory }
    ensures refuses { (why : StoreFault) → HasFault model.now why → IsErrUnless result why StoreFault.OutOfMemory }
{
    let mut builder = Builder::new_seeded(alloc, seed);
    declare_items(alloc, model, &mut builder)?;
    each_builder_is_made(&builder);
    match builder.finish() {
        Ok(model) => Ok(model),
        Err(ReadFault::File(fault)) => Err(StoreFault::Whole(fault)),
        Err(ReadFault::Failed) => unreachable!(),
        Err(ReadFault::OutOfMemory) => Err(StoreFault::OutOfMemory),
    }
}

/// The canonical text of the model that arrays define.
fn stored_text<B: Format>(
    alloc: Global,
    seed: HashSeed,
    model: &MpslpModel,
) -> Result<Vec<u8>, StoreFault>
    ensures answer { IsStoring B.unfit B.text model.now result }
    ensures accepts { (m : LinearModel) → Defines model.now m → B.unfit m ≡ None → IsOkUnless result StoreFault.OutOfMemory }
    ensures refuses { (why : StoreFault) → HasFault model.now why → IsErrUnless result why StoreFault.OutOfMemory }
    ensures cannot_express { (m : LinearModel) (place : NameAt) → Defines model.now m → B.unfit m ≡ Some place
        → IsErrUnless result (StoreFault.NotLp place) StoreFault.OutOfMemory }
{
    let model = stored_model(alloc, seed, model)?;
    match text_of::<B>(alloc, &model) {
        Ok(text) => Ok(text),
        Err(ConvertFault::NotLp(place)) => Err(StoreFault::NotLp(place)),
        Err(_) => Err(StoreFault::OutOfMemory),
    }
}

/// The same, in a format that is known only when the program runs.
fn stored_text_in(
    alloc: Global,
    seed: HashSeed,
    to: Form,
    model: &MpslpModel,
) -> Result<Vec<u8>, StoreFault>
    ensures answer { IsStoring (unfit_in to) (text_in to) model.now result }
    ensures accepts { (m : LinearModel) → Defines model.now m → unfit_in to m ≡ None → IsOkUnless result StoreFault.OutOfMemory }
    ensures refuses { (why : StoreFault) → HasFault model.now why → IsErrUnless result why StoreFault.OutOfMemory }
    ensures cannot_express { (m : LinearModel) (place : NameAt) → Defines model.now m → unfit_in to m ≡ Some place
        → IsErrUnless result (StoreFault.NotLp place) StoreFault.OutOfMemory }
{
    match to {
        Form::Mps => stored_text::<Mps>(alloc, seed, model),
        Form::Lp => stored_text::<Lp>(alloc, seed, model),
    }
}

/// The status of an error of arrays.
pub(crate) fn store_status(fault: &StoreFault) -> u32
    ensures { result ≡ store_status fault.now }
{
    match fault {
        StoreFault::Item(_) | StoreFault::Whole(_) => REFUSED,
        StoreFault::NotLp(_) => NOT_LP,
        StoreFault::OutOfMemory => OUT_OF_MEMORY,
    }
}

/// Sets the text, or the error.
fn give_stored(
    answer: Result<Vec<u8>, StoreFault>,
    out: &mut MpslpText,
    fault: &mut MpslpFault,
) -> u32
    ensures { IsStoreReturned answer result out.old out.new fault.old fault.new }
{
    match answer {
        Ok(text) => {
            out.bytes = text.leak();
            OK
        }
        Err(why) => {
            set_store_fault(&why, fault);
            store_status(&why)
        }
    }
}

/// Writes the canonical text, in the format `to`, of the model that arrays define: 0 is MPS, 1 is LP.
///
/// The arrays have the form that [`seeded_load`](crate::loading::seeded_load) returns, but rows, columns and the elements of a
/// column may come in any order, and numbers need not be in normal form. A limit or bound with an absolute value of 10^20 or
/// more is the infinity of its sign. A coefficient of 0 is no nonzero of the model. Every index is checked before it is used.
///
/// | status | when |
/// |---|---|
/// | 0 | `out` is the text, allocated by `malloc`; the caller frees it unless it is empty |
/// | 2 | the arrays define no model; `fault` is their first error |
/// | 4 | the model has a name that is not legal in LP; `fault` has the place of the first one |
/// | 5 | an allocation failed |
/// | 6 | `to` is an unknown format |
///
/// The first error is the first in this order: the objective (name, constant, sense), the rows, and then each column (name,
/// bounds, cost, type) with its elements. It has its place and index in the arrays. If no item has an error, the error is that
/// of the whole, as at the end of a file, with its name.
#[unsafe(no_mangle)]
pub extern "C" fn seeded_store(
    alloc: Global,
    state: u64,
    factor: u64,
    to: u32,
    model: &MpslpModel,
    out: &mut MpslpText,
    fault: &mut MpslpFault,
) -> u32
    ensures { IsStoreAnswer (format_of to) model.now result out.old out.new fault.old fault.new }
{
    match format_of(to) {
        Some(to) => give_stored(
            stored_text_in(alloc, HashSeed { state, factor }, to, model),
            out,
            fault,
        ),
        None => UNKNOWN_FORMAT,
    }
}
