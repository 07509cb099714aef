//! The sections of an MPS file.

/// A section of an MPS file, begun by a header line. Sections come in this order, except that OBJSENSE and OBJNAME, and RHS,
/// RANGES and BOUNDS, may come in any order.
#[derive(Clone, Copy, Debug, PartialEq, Eq)]
pub enum Section {
    /// `NAME`: the rest of its line is ignored.
    Name,
    /// `OBJSENSE`: whether the objective is minimized or maximized.
    ObjSense,
    /// `OBJNAME`: which N row is the objective.
    ObjName,
    /// `ROWS`: the objective and the rows, with their types.
    Rows,
    /// `COLUMNS`: the columns with their coefficients, and marker lines around integer columns.
    Columns,
    /// `RHS`: the right-hand sides of rows. An entry of the objective is the negative of its constant.
    Rhs,
    /// `RANGES`: how far apart the two limits of a row are.
    Ranges,
    /// `BOUNDS`: the bounds of columns.
    Bounds,
    /// `ENDATA`: the end. Lines after it are ignored.
    EndData,
}
