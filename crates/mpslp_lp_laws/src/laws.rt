//! Laws of canonical LP texts. Each is the contract of a function that does nothing: to cite the law, call the function.

ghost use Rattle.mpslp_lp_laws.specs.Laws.{AreReadAsPrinted, DeclareTheirModels, DeclareWhatFits, DistinguishModels};
ghost use Rattle.mpslp_lp_laws.specs.PrintedDeclarations.{DeriveObjectives, DeriveRows, DeriveBounds, DeriveAllKinds, DeriveAllHeadings};

/// The canonical LP text of a well-formed model with LP names is read as the lines and tokens from which it was printed, and
/// no line has an error of its own.
pub fn canonical_lp_text_is_read_as_printed()
    ensures { AreReadAsPrinted }
{}

/// The canonical LP text of a well-formed model with LP names declares this model: reading what was written gives the model
/// back.
pub fn canonical_lp_text_declares_its_model()
    ensures { DeclareTheirModels }
{}

/// Two well-formed models with LP names have the same canonical LP text if and only if they are equal.
pub fn one_canonical_lp_text_for_each_model()
    ensures { DistinguishModels }
{}

/// What LP text declares is well-formed and has only LP names, so LP can express it.
pub fn models_declared_in_lp_fit()
    ensures { DeclareWhatFits }
{}

/// The printed lines of the objective declare the sense, the name, each term and the constant from which they were printed,
/// and have no lexical error. A constant is completed by the heading of the rows, which follows it, also in an objective without
/// terms.
pub fn canonical_lp_objective_lines_are_derived()
    ensures { DeriveObjectives }
{}

/// The printed lines of a row declare its name, its limits and its terms, and have no lexical error.
pub fn canonical_lp_row_lines_are_derived()
    ensures { DeriveRows }
{}

/// The printed line of a column in Bounds declares the column and the bounds from which it was printed, and has no lexical
/// error. A column with the default bounds has no line.
pub fn canonical_lp_bound_lines_are_derived()
    ensures { DeriveBounds }
{}

/// The printed line of a column in Generals declares that it is integer, and in Semi-Continuous that it is semi-continuous;
/// it has no lexical error.
pub fn canonical_lp_kind_lines_are_derived()
    ensures { DeriveAllKinds }
{}

/// The printed headings of Bounds, Generals and Semi-Continuous open their sections wherever these may begin, and declare
/// nothing; after `End` the text is complete. None has a lexical error.
pub fn canonical_lp_heading_lines_are_derived()
    ensures { DeriveAllHeadings }
{}
