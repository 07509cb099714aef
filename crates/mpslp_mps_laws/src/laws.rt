//! Laws of canonical texts. Each is the contract of a function that does nothing: to cite the law, call the function.

ghost use Rattle.mpslp_mps_laws.specs.Laws.{AreReadAsPrinted, DeclareTheirModels, DistinguishModels};
ghost use Rattle.mpslp_mps_laws.specs.PrintedDeclarations.{DeriveHeaders, DeriveSense, DeriveAllRows, DeriveAllColumns, DeriveRhs, DeriveRanges, DeriveAllBounds};

/// The canonical MPS text of a well-formed model is read as the lines and fields from which it was printed.
pub fn canonical_mps_text_is_read_as_printed()
    ensures { AreReadAsPrinted }
{}

/// The canonical MPS text of a well-formed model declares this model: reading what was written gives the model back.
pub fn canonical_mps_text_declares_its_model()
    ensures { DeclareTheirModels }
{}

/// Two well-formed models have the same canonical MPS text if and only if they are equal.
pub fn one_canonical_mps_text_for_each_model()
    ensures { DistinguishModels }
{}

/// A printed header declares nothing and has no error, if its section may begin and has not begun. For `COLUMNS` the
/// objective must be declared.
pub fn canonical_mps_header_lines_declare_nothing()
    ensures { DeriveHeaders }
{}

/// The printed line `MAX`, after the header `OBJSENSE`, declares that the objective is maximized, and has no error.
pub fn canonical_mps_maximize_line_is_derived()
    ensures { DeriveSense }
{}

/// Each printed line of ROWS declares the objective or the row from which it was printed, and has no error: the objective if
/// none is declared and OBJNAME names none, a row after there is an objective.
pub fn canonical_mps_row_lines_are_derived()
    ensures { DeriveAllRows }
{}

/// Each printed line of COLUMNS declares the column and the coefficient from which it was printed, inside an integer block
/// also that the column is marked, and has no error. The marker lines declare nothing, and open and close the integer block.
pub fn canonical_mps_column_lines_are_derived()
    ensures { DeriveAllColumns }
{}

/// Each printed line of RHS declares the right-hand side from which it was printed, and has no error: that of a row that is
/// not of type N, or the negated constant of the objective.
pub fn canonical_mps_rhs_lines_are_derived()
    ensures { DeriveRhs }
{}

/// Each printed line of RANGES declares the range from which it was printed, and has no error.
pub fn canonical_mps_range_lines_are_derived()
    ensures { DeriveRanges }
{}

/// Each printed line of BOUNDS declares the bounds of its column from which it was printed, `SC` also that the column is
/// semi-continuous, and has no error.
pub fn canonical_mps_bound_lines_are_derived()
    ensures { DeriveAllBounds }
{}
