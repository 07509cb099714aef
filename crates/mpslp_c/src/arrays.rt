//! A whole model, as arrays for C.

ghost use Rattle.std.specs.Prelude.{◌≡◌, ◌<◌, ◌+◌, IfOk, Some, length, slice_get};
ghost use Rattle.mpslp_model_core.specs.Views.{num_rows, num_columns, column_name, column_elements, numbered_elements};
ghost use Rattle.mpslp_c.specs.Arrays.{kind_number, sense_number, KeepsNames, RepresentsName, RepresentsRow, RepresentsRows, KeepsElements, RepresentsElement, RepresentsElements, RepresentsColumnHead, RepresentsColumns, RepresentsModel, elements_before};

use crate::numbers::{MpslpNumber, c_limit, c_number};
use mpslp_model::laws::each_model_is_sound;
use mpslp_model::{Kind, Model, Name, Sense};
use std::alloc::{AllocError, Global};

/// A continuous column.
pub(crate) const CONTINUOUS: u32 = 0;

/// An integer column.
pub(crate) const INTEGER: u32 = 1;

/// A semi-continuous column.
pub(crate) const SEMI: u32 = 2;

/// The objective is minimised.
pub(crate) const MINIMIZE: u32 = 0;

/// It is maximised.
pub(crate) const MAXIMIZE: u32 = 1;

/// A name, by its place in the names of a model.
#[repr(C)]
#[derive(Clone, Copy)]
pub struct MpslpName {
    /// How many bytes come before it.
    pub at: usize,
    /// Its length in bytes.
    pub len: usize,
}

const _: () = prove!(size_of::<MpslpName>() == 16);

/// A row.
#[repr(C)]
#[derive(Clone, Copy)]
pub struct MpslpRow {
    /// Its name.
    pub name: MpslpName,
    /// Its lower limit.
    pub lower: MpslpNumber,
    /// Its upper limit.
    pub upper: MpslpNumber,
}

const _: () = prove!(size_of::<MpslpRow>() == 64);

/// A column.
#[repr(C)]
#[derive(Clone, Copy)]
pub struct MpslpColumn {
    /// Its name.
    pub name: MpslpName,
    /// Its lower bound.
    pub lower: MpslpNumber,
    /// Its upper bound.
    pub upper: MpslpNumber,
    /// Its objective coefficient.
    pub cost: MpslpNumber,
    /// The index of its first element: how many the columns before it have.
    pub first: usize,
    /// Its type: 0 is continuous, 1 integer, 2 semi-continuous.
    pub kind: u32,
}

const _: () = prove!(size_of::<MpslpColumn>() == 104);

/// A nonzero of a row.
#[repr(C)]
#[derive(Clone, Copy)]
pub struct MpslpElement {
    /// The index of the row.
    pub row: usize,
    /// Its value.
    pub value: MpslpNumber,
}

const _: () = prove!(size_of::<MpslpElement>() == 32);

/// A model. The caller frees the arrays of a model that was loaded, except empty ones.
#[repr(C)]
#[derive(Drop)]
pub struct MpslpModel {
    /// The bytes of all names.
    pub names: &'static [u8],
    /// The rows; of a model that was loaded, in byte order of their names.
    pub rows: &'static [MpslpRow],
    /// The columns; of a model that was loaded, in byte order of their names.
    pub columns: &'static [MpslpColumn],
    /// The nonzeros, column after column; of a model that was loaded, each column's in the order of rows.
    pub elements: &'static [MpslpElement],
    /// The constant of the objective.
    pub constant: MpslpNumber,
    /// The name of the objective.
    pub objective: MpslpName,
    /// Whether the objective is minimised or maximised: 0 or 1.
    pub sense: u32,
}

const _: () = prove!(size_of::<MpslpModel>() == 112);

/// The number of a type of columns.
fn kind_number(kind: Kind) -> u32
    ensures { result ≡ kind_number kind }
{
    match kind {
        Kind::Continuous => CONTINUOUS,
        Kind::Integer => INTEGER,
        Kind::Semi => SEMI,
    }
}

/// The number of a sense.
fn sense_number(sense: Sense) -> u32
    ensures { result ≡ sense_number sense }
{
    match sense {
        Sense::Minimize => MINIMIZE,
        Sense::Maximize => MAXIMIZE,
    }
}

/// Appends a name.
fn c_name(name: &Name, names: &mut Vec<u8>) -> Result<MpslpName, AllocError>
    ensures keeps { KeepsNames names.old.items names.new.items }
    ensures represents { IfOk result (RepresentsName names.new.items name.now) }
{
    let bytes = name.as_bytes();
    let at = names.len();
    names.extend_from_slice(bytes)?;
    Ok(MpslpName {
        at,
        len: bytes.len(),
    })
}

/// The row of index `i`.
fn c_row(model: &Model, i: usize, names: &mut Vec<u8>) -> Result<MpslpRow, AllocError>
    requires { i < num_rows model.now }
    ensures keeps { KeepsNames names.old.items names.new.items }
    ensures represents { IfOk result (RepresentsRow model.now names.new.items i) }
{
    Ok(MpslpRow {
        name: c_name(model.row_name(i), names)?,
        lower: c_limit(model.row_lower(i)),
        upper: c_limit(model.row_upper(i)),
    })
}

/// All rows.
fn c_rows(alloc: Global, model: &Model, names: &mut Vec<u8>) -> Result<Vec<MpslpRow>, AllocError>
    ensures keeps { KeepsNames names.old.items names.new.items }
    ensures count { IfOk result (λ rows. length rows.items ≡ num_rows model.now) }
    ensures represents { IfOk result (λ rows. RepresentsRows model.now names.new.items rows.items) }
{
    let mut rows = Vec::with_capacity(alloc, model.num_rows())?;
    for i in 0..model.num_rows() {
        let row = c_row(model, i, names)?;
        rows.push(row)?;
    }
    Ok(rows)
}

/// The nonzero of index `k` in the column of index `j`.
fn c_element(model: &Model, j: usize, k: usize) -> MpslpElement
    requires column { j < num_columns model.now }
    requires entry { k < length (column_elements model.now (column_name model.now j)) }
    ensures { RepresentsElement (slice_get (numbered_elements model.now (column_name model.now j)) k) (Some result) }
{
    let (row, value) = model.entry(j, k);
    MpslpElement {
        row,
        value: c_number(value),
    }
}

/// Appends the nonzeros of the column of index `j`.
fn put_elements(model: &Model, j: usize, elements: &mut Vec<MpslpElement>) -> Result<(), AllocError>
    requires { j < num_columns model.now }
    ensures keeps { KeepsElements elements.old.items elements.new.items }
    ensures count { IfOk result (λ _. length elements.new.items ≡ length elements.old.items + length (column_elements model.now (column_name model.now j))) }
    ensures represents { let count = length (column_elements model.now (column_name model.now j)) in
        IfOk result (λ _. RepresentsElements model.now j (length elements.old.items) count elements.new.items) }
{
    for k in 0..model.column_len(j) {
        let element = c_element(model, j, k);
        elements.push(element)?;
    }
    Ok(())
}

/// The column of index `j` without its nonzeros, the first of which has the index `first`.
fn c_column(
    model: &Model,
    j: usize,
    first: usize,
    names: &mut Vec<u8>,
) -> Result<MpslpColumn, AllocError>
    requires column { j < num_columns model.now }
    requires first { first ≡ elements_before model.now j }
    ensures keeps { KeepsNames names.old.items names.new.items }
    ensures represents { IfOk result (RepresentsColumnHead model.now names.new.items j) }
{
    Ok(MpslpColumn {
        name: c_name(model.column_name(j), names)?,
        lower: c_limit(model.col_lower(j)),
        upper: c_limit(model.col_upper(j)),
        cost: c_number(model.objective_coefficient(j)),
        first,
        kind: kind_number(model.column_kind(j)),
    })
}

/// All columns, and their nonzeros.
fn c_columns(
    alloc: Global,
    model: &Model,
    names: &mut Vec<u8>,
    elements: &mut Vec<MpslpElement>,
) -> Result<Vec<MpslpColumn>, AllocError>
    requires { length elements.old.items ≡ 0 }
    ensures keeps { KeepsNames names.old.items names.new.items }
    ensures count { IfOk result (λ columns. length columns.items ≡ num_columns model.now) }
    ensures elements { IfOk result (λ _. length elements.new.items ≡ elements_before model.now (num_columns model.now)) }
    ensures represents { IfOk result (λ columns. RepresentsColumns model.now names.new.items elements.new.items columns.items) }
{
    let mut columns = Vec::with_capacity(alloc, model.num_cols())?;
    for j in 0..model.num_cols() {
        let column = c_column(model, j, elements.len(), names)?;
        put_elements(model, j, elements)?;
        columns.push(column)?;
    }
    Ok(columns)
}

/// Room for the nonzeros.
fn room_for_elements(alloc: Global, model: &Model) -> Result<Vec<MpslpElement>, AllocError>
    ensures { IfOk result (λ elements. length elements.items ≡ 0) }
{
    match usize::try_from(model.num_elements()) {
        Ok(count) => Vec::with_capacity(alloc, count),
        Err(_) => Err(AllocError),
    }
}

/// The arrays of a model. No array is leaked before all of them are made, so an allocation that fails loses none.
pub(crate) fn c_model(alloc: Global, model: &Model) -> Result<MpslpModel, AllocError>
    ensures { IfOk result (RepresentsModel model.now) }
{
    let mut names = Vec::new(alloc);
    let objective = c_name(model.objective_name(), &mut names)?;
    let rows = c_rows(alloc, model, &mut names)?;
    let mut elements = room_for_elements(alloc, model)?;
    let columns = c_columns(alloc, model, &mut names, &mut elements)?;
    each_model_is_sound(model);
    Ok(MpslpModel {
        names: names.leak(),
        rows: rows.leak(),
        columns: columns.leak(),
        elements: elements.leak(),
        constant: c_number(model.objective_constant()),
        objective,
        sense: sense_number(model.objective_sense()),
    })
}
